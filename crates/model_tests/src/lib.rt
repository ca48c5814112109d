#![tactic(auto)]

#[cfg(test)]
mod tests {
    use model::model::Model;
    use model::model::calls::Constraint;
    use model::values::{Term, Window};
    use std::alloc::{AllocError, Global};
    use std::process::Abort;
    use std::test::Fail;
    use trial::{Refusal, refused, told};

    // Reads the bytes, which are refused as told, or accepted.
    fn expect(rt: &impl Abort, bytes: &[u8], refusal: Option<Refusal>) {
        let mut model = Model::fresh();
        assert_eq!(rt; told(model.read(bytes)), refusal);
    }

    // Two variables with the windows 0..2 and 0..3, in 9 bytes.
    fn two() -> [u8; 9] {
        [5, 0, 1, 0, 2, 0, 2, 0, 3]
    }

    // Those, and then further bytes.
    fn after_two(heap: Global, more: &[u8]) -> Result<Vec<u8>, AllocError> {
        let mut bytes = Vec::new(heap);
        bytes.extend_from_slice(&two())?;
        bytes.extend_from_slice(more)?;
        Ok(bytes)
    }

    // The record after those is refused with the number, or accepted.
    fn expect_after(
        rt: &impl Abort,
        heap: Global,
        more: &[u8],
        number: Option<u8>,
    ) -> Result<(), Fail> {
        let bytes = after_two(heap, more)?;
        let refusal = number.map(|number| Refusal { number, place: 9 });
        expect(rt, bytes.as_slice(), refusal);
        Ok(())
    }

    #[test]
    fn each_refusal_of_the_first_record(rt: HostRuntime) {
        expect(&rt, &[], refused(1, 0));
        expect(&rt, &[3], refused(1, 0));
        expect(&rt, &[3, 0, 1], refused(1, 0));
        expect(&rt, &[3, 0, 0, 0, 1, 0, 1], refused(2, 0));
        expect(&rt, &[3, 0, 4, 0, 1, 0, 1], refused(2, 0));
        expect(&rt, &[3, 0, 1, 1, 1, 0, 1], refused(2, 0));
        expect(&rt, &[3, 0, 3, 0, 2, 0, 1], refused(3, 0));
        expect(&rt, &[3, 0, 1, 0, 1, 0], refused(1, 0));
        expect(&rt, &[0, 0, 1, 0], refused(4, 0));
        expect(&rt, &[1, 0, 1, 0, 0], refused(4, 0));
        expect(&rt, &[4, 0, 1, 0, 1, 0, 1, 0], refused(4, 0));
        expect(&rt, &[3, 0, 1, 0, 1, 10, 10], refused(5, 0));
        expect(&rt, &[3, 0, 1, 0, 1, 11, 10], refused(5, 0));
        expect(&rt, &[3, 0, 1, 0, 1, 0, 65], refused(5, 0));
        expect(&rt, &[3, 0, 1, 0, 1, 63, 64], None);
        expect(&rt, &[3, 0, 1, 0, 1, 0, 64], None);
        expect(&rt, &two(), None);
    }

    #[test]
    fn each_refusal_of_a_later_record(rt: HostRuntime) -> Result<(), Fail> {
        expect_after(&rt, rt.alloc(), &[3], Some(1))?;
        expect_after(&rt, rt.alloc(), &[3, 0, 3], Some(1))?;
        expect_after(&rt, rt.alloc(), &[3, 0, 9, 0, 2, 0, 1], Some(2))?;
        expect_after(&rt, rt.alloc(), &[3, 0, 1, 0, 1, 0, 1], Some(3))?;
        expect_after(&rt, rt.alloc(), &[3, 0, 3, 0, 2, 0], Some(1))?;
        expect_after(&rt, rt.alloc(), &[0, 0, 3, 0], Some(4))?;
        expect_after(&rt, rt.alloc(), &[2, 0, 3, 0, 1, 0], Some(4))?;
        expect_after(&rt, rt.alloc(), &[4, 0, 3, 0, 2, 0, 1, 0], Some(4))?;
        expect_after(&rt, rt.alloc(), &[3, 0, 3, 0, 2, 0, 2], Some(6))?;
        expect_after(&rt, rt.alloc(), &[3, 0, 3, 0, 2, 1, 1], Some(6))?;
        expect_after(&rt, rt.alloc(), &[3, 0, 3, 0, 2, 0, 1], None)?;
        expect_after(&rt, rt.alloc(), &[5, 0, 2, 0, 0, 1, 0, 0, 0], Some(4))?;
        expect_after(
            &rt,
            rt.alloc(),
            &[8, 0, 2, 0, 1, 1, 0, 0, 0, 2, 1, 0],
            Some(6),
        )?;
        expect_after(&rt, rt.alloc(), &[8, 0, 2, 0, 1, 1, 0, 0, 0, 1, 1, 0], None)
    }

    // Where a record breaks two rows, the first one is told.
    #[test]
    fn the_order_of_refusals(rt: HostRuntime) -> Result<(), Fail> {
        // an unknown kind before a wrong place, a cut body and a bad count
        expect(&rt, &[9, 0, 7, 0], refused(2, 0));
        expect_after(&rt, rt.alloc(), &[200, 0, 0, 0, 99], Some(2))?;
        // a wrong place before a cut body and a bad count
        expect(&rt, &[9, 0, 2, 0, 0], refused(3, 0));
        expect_after(&rt, rt.alloc(), &[200, 0, 1, 0, 99], Some(3))?;
        // a cut body before a bad count, a bad window and a bad variable
        expect(&rt, &[3, 0, 1, 0, 99, 5], refused(1, 0));
        expect_after(&rt, rt.alloc(), &[4, 0, 3, 0, 99, 9, 9], Some(1))?;
        // a bad count before a bad window and a bad variable
        expect(&rt, &[5, 0, 1, 0, 1, 9, 9, 9, 9], refused(4, 0));
        expect_after(&rt, rt.alloc(), &[3, 0, 3, 0, 1, 9, 9], Some(4))
    }

    // Pushes `times` records of kind 3 with the variables 0 to `count` - 1.
    fn push_lists(bytes: &mut Vec<u8>, times: usize, count: u8) -> Result<(), AllocError> {
        for _ in 0..times {
            bytes.extend_from_slice(&[count.saturating_add(1), 0, 3, 0, count])?;
            bytes.extend(0..count)?;
        }
        Ok(())
    }

    // 64 variables of the window 0..1.
    fn most(heap: Global) -> Result<Vec<u8>, AllocError> {
        let mut bytes = Vec::new(heap);
        bytes.extend_from_slice(&[129, 0, 1, 0, 64])?;
        for _ in 0..64 {
            bytes.extend_from_slice(&[0, 1])?;
        }
        Ok(bytes)
    }

    // 64 variables, then so many lists of so many variables, and at last one more record.
    fn expect_lists(
        rt: &impl Abort,
        heap: Global,
        times: usize,
        count: u8,
        last: &[u8],
        number: Option<u8>,
    ) -> Result<(), Fail> {
        let mut bytes = most(heap)?;
        push_lists(&mut bytes, times, count)?;
        let place = bytes.len();
        bytes.extend_from_slice(last)?;
        let refusal = number.map(|number| Refusal { number, place });
        expect(rt, bytes.as_slice(), refusal);
        Ok(())
    }

    #[test]
    fn every_limit_at_its_edge(rt: HostRuntime) -> Result<(), Fail> {
        // 64 variables, and a 65th
        let mut bytes = most(rt.alloc())?;
        expect(&rt, bytes.as_slice(), None);
        bytes.extend_from_slice(&[0, 1])?;
        expect(&rt, bytes.as_slice(), refused(1, 133));
        expect(&rt, &[1, 0, 1, 0, 65], refused(4, 0));
        // 64 entries in a record
        expect_lists(&rt, rt.alloc(), 1, 64, &[], None)?;
        expect_lists(&rt, rt.alloc(), 0, 0, &[66, 0, 3, 0, 65], Some(1))?;
        // 64 constraint records, and a 65th, before its bad variable
        expect_lists(&rt, rt.alloc(), 64, 2, &[], None)?;
        expect_lists(&rt, rt.alloc(), 64, 2, &[3, 0, 3, 0, 2, 0, 1], Some(7))?;
        expect_lists(&rt, rt.alloc(), 64, 2, &[3, 0, 3, 0, 2, 77, 77], Some(7))?;
        expect_lists(&rt, rt.alloc(), 64, 2, &[3, 0, 3, 0, 1, 77, 77], Some(4))?;
        // 1,024 entries, and more
        expect_lists(&rt, rt.alloc(), 16, 64, &[], None)?;
        expect_lists(
            &rt,
            rt.alloc(),
            16,
            64,
            &[8, 0, 2, 0, 1, 0, 0, 0, 0, 0, 1, 0],
            Some(7),
        )?;
        expect_lists(&rt, rt.alloc(), 15, 64, &[3, 0, 3, 0, 2, 0, 1], None)?;
        expect_lists(
            &rt,
            rt.alloc(),
            16,
            63,
            &[
                17, 0, 3, 0, 16, 0, 1, 2, 3, 4, 5, 6, 7, 8, 9, 10, 11, 12, 13, 14, 15,
            ],
            None,
        )?;
        expect_lists(
            &rt,
            rt.alloc(),
            16,
            63,
            &[
                18, 0, 3, 0, 17, 0, 1, 2, 3, 4, 5, 6, 7, 8, 9, 10, 11, 12, 13, 14, 15, 16,
            ],
            Some(7),
        )
    }

    // A sum with the extremes of bound and coefficients, then a list.
    fn extremes(heap: Global) -> Result<Vec<u8>, AllocError> {
        after_two(
            heap,
            &[
                11, 0, 2, 0, 2, 0, 0, 0, 128, 1, 255, 127, 0, 0, 128, 3, 0, 3, 0, 2, 1, 0,
            ],
        )
    }

    #[test]
    fn extremes_are_read(rt: HostRuntime) -> Result<(), Fail> {
        let bytes = extremes(rt.alloc())?;
        let mut model = Model::fresh();
        assert!(rt; model.read(bytes.as_slice()).is_ok());
        assert_eq!(rt; model.variables(), 2);
        assert_eq!(rt; model.records(), 2);
        let Some(Constraint::AtMost { bound, terms }) = model.constraint(0) else {
            return Err(Fail::new("no sum"));
        };
        assert_eq!(rt; bound, i32::MIN);
        let wanted = [
            Term {
                variable: 1,
                coefficient: i16::MAX,
            },
            Term {
                variable: 0,
                coefficient: i16::MIN,
            },
        ];
        assert_eq!(rt; terms, wanted.as_slice());
        let Some(Constraint::Different { variables }) = model.constraint(1) else {
            return Err(Fail::new("no list"));
        };
        assert_eq!(rt; variables, [1, 0].as_slice());
        assert!(rt; model.constraint(2).is_none());
        assert_eq!(rt; model.naming(0).word, 3);
        assert_eq!(rt; model.naming(1).word, 3);
        assert_eq!(rt; model.naming(2).word, 0);
        assert_eq!(rt; model.naming(99).word, 0);
        Ok(())
    }

    // Cut at every byte: whole only where a record ends. A refusal leaves the model as it was.
    #[test]
    fn cut_at_every_byte(rt: HostRuntime) -> Result<(), Fail> {
        let bytes = extremes(rt.alloc())?;
        let all = bytes.as_slice();
        let mut model = Model::fresh();
        for k in 0..all.len() {
            let whole = k == 9 || k == 24;
            assert_eq!(rt; model.read(&all[0..k]).is_ok(), whole);
            let n = if k < 9 { 1 } else { 2 };
            assert_eq!(rt; model.variables(), n);
            let records = if k < 24 { 0 } else { 1 };
            assert_eq!(rt; model.records(), records);
        }
        assert!(rt; model.read(all).is_ok());
        assert_eq!(rt; model.records(), 2);
        Ok(())
    }

    #[test]
    fn a_fresh_model(rt: HostRuntime) {
        let model = Model::fresh();
        assert_eq!(rt; model.variables(), 1);
        assert_eq!(rt; model.records(), 0);
        assert_eq!(rt; model.window(0), Some(Window { low: 0, high: 1 }));
        assert!(rt; model.window(1).is_none());
        assert!(rt; model.constraint(0).is_none());
    }
}
