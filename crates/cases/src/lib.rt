// Worked cases in one list, each named by what it shows. `cases_hold` has all of them computed from the definitions, and the crate
// `cases_tests` runs all of them on the code.

#![tactic(auto)]

ghost use Rattle.std.specs.Prelude.{◌≡◌, true};
ghost use Rattle.cases.specs.Claims.{claimed};
ghost use Rattle.cases.specs.Cases.{cases, claims, all_hold};
ghost use Rattle.cases.specs.Holds.{holds};
ghost use Rattle.cases.specs.Marks.{MarksCompute};

use model::values::Window;
use search::search::Answer;

#[derive(Clone, Copy, Debug)]
pub enum Case {
    ThirdMarkIsRefused,
    FiveWordsHoldOneCopy,
    ThreeWordsHoldNoCopy,
    TwoApartInSevenNodes,
    TwoApartByTwos,
    InOrderInFiveNodes,
    ThreeApartInTwoValuesAreDone,
    ThreeApartInTwoValuesAreSpent,
    TwoApartInOneValueAreDone,
    OneValueIsAPlan,
    EmptyWindowIsRefused,
    LastValueIsHeld,
    WindowPastTheLastIsRefused,
    NoBytesAreRefused,
}

// What a case claims. Trees and calls are those of the rule `First`.
#[derive(Clone, Copy)]
pub enum Claim<'a> {
    // A trail of so many cells and entries has this depth; with as many marks standing the next is refused with the number.
    Trail {
        cells: usize,
        entries: usize,
        depth: usize,
        number: u8,
    },
    // A store of copies of so many cells over so many words has this depth.
    Copies {
        cells: usize,
        words: usize,
        depth: usize,
    },
    // Model bytes that are refused.
    Refused {
        bytes: &'a [u8],
        number: u8,
        place: usize,
    },
    // The domains at the root of the model's tree, its plans one after another, and the number of its nodes.
    Tree {
        bytes: &'a [u8],
        root: &'a [Window],
        plans: &'a [u8],
        nodes: u64,
    },
    // What calls with this budget answer, one after another.
    Calls {
        bytes: &'a [u8],
        budget: u64,
        answers: &'a [Answer],
    },
}

// Two variables, 0 to 2 and 0 to 3, all different.
const TWO_APART: [u8; 16] = [5, 0, 1, 0, 2, 0, 2, 0, 3, 3, 0, 3, 0, 2, 0, 1];

// Two variables, both 0 to 3, the first less the second at most -1.
const IN_ORDER: [u8; 24] = [
    5, 0, 1, 0, 2, 0, 3, 0, 3, 11, 0, 2, 0, 2, 255, 255, 255, 255, 0, 1, 0, 1, 255, 255,
];

// Three variables, each 0 to 2, all different.
const THREE_IN_TWO_VALUES: [u8; 19] = [7, 0, 1, 0, 3, 0, 2, 0, 2, 0, 2, 4, 0, 3, 0, 3, 0, 1, 2];

// The list of the cases.
pub fn all_cases() -> [Case; 14]
    ensures { result ≡ cases }
{
    [
        Case::ThirdMarkIsRefused,
        Case::FiveWordsHoldOneCopy,
        Case::ThreeWordsHoldNoCopy,
        Case::TwoApartInSevenNodes,
        Case::TwoApartByTwos,
        Case::InOrderInFiveNodes,
        Case::ThreeApartInTwoValuesAreDone,
        Case::ThreeApartInTwoValuesAreSpent,
        Case::TwoApartInOneValueAreDone,
        Case::OneValueIsAPlan,
        Case::EmptyWindowIsRefused,
        Case::LastValueIsHeld,
        Case::WindowPastTheLastIsRefused,
        Case::NoBytesAreRefused,
    ]
}

// What the case claims: models as bytes, where the specification has them in words.
pub fn claim_of(case: Case) -> Claim<'static>
    ensures { claimed result ≡ claims case }
{
    match case {
        Case::ThirdMarkIsRefused => Claim::Trail {
            cells: 2,
            entries: 5,
            depth: 2,
            number: 12,
        },
        Case::FiveWordsHoldOneCopy => Claim::Copies {
            cells: 2,
            words: 5,
            depth: 1,
        },
        Case::ThreeWordsHoldNoCopy => Claim::Copies {
            cells: 2,
            words: 3,
            depth: 0,
        },
        Case::TwoApartInSevenNodes => Claim::Tree {
            bytes: &TWO_APART,
            root: &[Window { low: 0, high: 2 }, Window { low: 0, high: 3 }],
            plans: &[0, 1, 0, 2, 1, 0, 1, 2],
            nodes: 7,
        },
        Case::TwoApartByTwos => Claim::Calls {
            bytes: &TWO_APART,
            budget: 2,
            answers: &[
                Answer::Spent(2),
                Answer::Plan(1),
                Answer::Plan(1),
                Answer::Plan(2),
                Answer::Plan(1),
                Answer::Done(0),
            ],
        },
        Case::InOrderInFiveNodes => Claim::Tree {
            bytes: &IN_ORDER,
            root: &[Window { low: 0, high: 2 }, Window { low: 1, high: 3 }],
            plans: &[0, 1, 0, 2, 1, 2],
            nodes: 5,
        },
        Case::ThreeApartInTwoValuesAreDone => Claim::Calls {
            bytes: &THREE_IN_TWO_VALUES,
            budget: 3,
            answers: &[Answer::Done(3)],
        },
        Case::ThreeApartInTwoValuesAreSpent => Claim::Calls {
            bytes: &THREE_IN_TWO_VALUES,
            budget: 2,
            answers: &[Answer::Spent(2)],
        },
        Case::TwoApartInOneValueAreDone => Claim::Calls {
            bytes: &[5, 0, 1, 0, 2, 0, 1, 0, 1, 3, 0, 3, 0, 2, 0, 1],
            budget: 1,
            answers: &[Answer::Done(1)],
        },
        Case::OneValueIsAPlan => Claim::Calls {
            bytes: &[3, 0, 1, 0, 1, 5, 6],
            budget: 1,
            answers: &[Answer::Plan(1), Answer::Done(0)],
        },
        Case::EmptyWindowIsRefused => Claim::Refused {
            bytes: &[3, 0, 1, 0, 1, 10, 10],
            number: 5,
            place: 0,
        },
        Case::LastValueIsHeld => Claim::Tree {
            bytes: &[3, 0, 1, 0, 1, 63, 64],
            root: &[Window { low: 63, high: 64 }],
            plans: &[63],
            nodes: 1,
        },
        Case::WindowPastTheLastIsRefused => Claim::Refused {
            bytes: &[3, 0, 1, 0, 1, 0, 65],
            number: 5,
            place: 0,
        },
        Case::NoBytesAreRefused => Claim::Refused {
            bytes: &[],
            number: 1,
            place: 0,
        },
    }
}

// Every case holds of the definitions, and none is left out of the list.
pub fn cases_hold()
    ensures listed { all_hold cases ≡ true }
    ensures each { (c : Case) → holds (claims c) ≡ true }
{}

// Marks as the cases compute them are the marks of every store.
pub fn marks_compute()
    ensures { MarksCompute }
{}
