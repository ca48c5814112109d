// What a run was asked for: its words.
use std::str::FromStr;

// A word or a value that is not known.
#[derive(Clone, Copy, PartialEq, Eq, Debug)]
pub struct Unknown;

#[derive(Clone, Copy, PartialEq, Eq, Debug)]
pub enum Board {
    // a trail, marked at every node
    Large,
    // a trail, recomputed from one mark
    Small,
    // copies, marked at every node
    Station,
    // all three side by side
    All,
}

impl FromStr for Board {
    type Err = Unknown;

    fn from_str(s: &str) -> Result<Board, Unknown> {
        match s {
            "large" => Ok(Board::Large),
            "small" => Ok(Board::Small),
            "station" => Ok(Board::Station),
            "all" => Ok(Board::All),
            _ => Err(Unknown),
        }
    }
}

#[derive(Clone, Copy, PartialEq, Eq, Debug)]
pub enum Branching {
    First,
    Small,
}

impl FromStr for Branching {
    type Err = Unknown;

    fn from_str(s: &str) -> Result<Branching, Unknown> {
        match s {
            "first" => Ok(Branching::First),
            "small" => Ok(Branching::Small),
            _ => Err(Unknown),
        }
    }
}

#[derive(Clone, Copy)]
pub struct Wish {
    pub branching: Branching,
    pub board: Board,
    // nodes for each next
    pub budget: u64,
    // nodes in all
    pub limit: u64,
    // the one plan looked up, by its number
    pub plan: Option<u64>,
}

impl Wish {
    pub fn usual() -> Wish {
        Wish {
            branching: Branching::First,
            board: Board::All,
            budget: 1024,
            limit: u64::MAX,
            plan: None,
        }
    }

    // The wish with one word more, or none where the word is not known.
    pub fn with(self, word: &str) -> Option<Wish> {
        let (name, value) = word.split_once("=")?;
        match name {
            "rule" => {
                let branching = value.parse::<Branching>().ok()?;
                Some(Wish { branching, ..self })
            }
            "board" => {
                let board = value.parse::<Board>().ok()?;
                Some(Wish { board, ..self })
            }
            "budget" => {
                let budget = value.parse::<u64>().ok().filter(|nodes| *nodes > 0)?;
                Some(Wish { budget, ..self })
            }
            "limit" => {
                let limit = value.parse::<u64>().ok()?;
                Some(Wish { limit, ..self })
            }
            "plan" => {
                let plan = Some(value.parse::<u64>().ok()?);
                Some(Wish { plan, ..self })
            }
            _ => None,
        }
    }
}
