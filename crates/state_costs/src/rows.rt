//! What is to be measured.

#[derive(Clone, Copy)]
pub(crate) enum Operation {
    Hold,
    Make,
    Copy,
    Write,
    WriteAll,
    Weaken,
    WeakenAll,
    Blur,
    Enter,
    KillSmall,
    KillBlock,
    Split,
    Reshare,
    /// The same where no copy shares the state: only the first round has pairs.
    ReshareOwn,
    Join,
    Widen,
    UnifyJoin,
    Leq,
    Like,
    Same,
    CanWrite,
}

/// How the cells lie: bytes of one block, a byte in each of many blocks, or words of four bytes in one block.
#[derive(Clone, Copy)]
pub(crate) enum Lay {
    One,
    Many,
    Words,
}

/// What the second state differs in from the first.
#[derive(Clone, Copy)]
pub(crate) enum Case {
    Equal,
    /// One value is another.
    Value,
    /// The first state has a block of four bytes that the second lacks.
    Block,
    /// One cell has come apart.
    Parted,
    /// All cells have come apart.
    AllParted,
    /// So many Left and Right cells surely hold the same number.
    Pairs(u32),
    /// Cells were written again and again that mention another.
    Mentions,
    /// The second state is a copy, which shares all parts.
    Copied,
    /// The second state has no cells.
    Alone,
}

#[derive(Clone, Copy)]
pub(crate) struct Row {
    pub(crate) operation: Operation,
    pub(crate) cells: u32,
    pub(crate) lay: Lay,
    pub(crate) case: Case,
    pub(crate) rounds: u32,
    pub(crate) timed: bool,
}

fn operation_of(word: &str) -> Option<Operation> {
    match word {
        "hold" => Some(Operation::Hold),
        "make" => Some(Operation::Make),
        "copy" => Some(Operation::Copy),
        "write" => Some(Operation::Write),
        "write-all" => Some(Operation::WriteAll),
        "weaken" => Some(Operation::Weaken),
        "weaken-all" => Some(Operation::WeakenAll),
        "blur" => Some(Operation::Blur),
        "enter" => Some(Operation::Enter),
        "kill-4" => Some(Operation::KillSmall),
        "kill-block" => Some(Operation::KillBlock),
        "split" => Some(Operation::Split),
        "reshare" => Some(Operation::Reshare),
        "reshare-own" => Some(Operation::ReshareOwn),
        "join" => Some(Operation::Join),
        "widen" => Some(Operation::Widen),
        "unify-join" => Some(Operation::UnifyJoin),
        "leq" => Some(Operation::Leq),
        "like" => Some(Operation::Like),
        "same" => Some(Operation::Same),
        "can-write" => Some(Operation::CanWrite),
        _ => None,
    }
}

fn lay_of(word: &str) -> Option<Lay> {
    match word {
        "one" => Some(Lay::One),
        "many" => Some(Lay::Many),
        "words" => Some(Lay::Words),
        _ => None,
    }
}

fn case_of(word: &str) -> Option<Case> {
    match word {
        "equal" => Some(Case::Equal),
        "value" => Some(Case::Value),
        "block" => Some(Case::Block),
        "parted" => Some(Case::Parted),
        "all-parted" => Some(Case::AllParted),
        "pair" => Some(Case::Pairs(1)),
        "pairs" => Some(Case::Pairs(1000)),
        "mentions" => Some(Case::Mentions),
        "copied" => Some(Case::Copied),
        "alone" => Some(Case::Alone),
        _ => None,
    }
}

impl Row {
    /// None where the line is no row.
    pub(crate) fn of_line(line: &str) -> Option<Row> {
        let mut words = line.split_whitespace();
        Some(Row {
            operation: operation_of(words.next()?)?,
            cells: words.next()?.parse().ok()?,
            lay: lay_of(words.next()?)?,
            case: case_of(words.next()?)?,
            rounds: words.next()?.parse().ok()?,
            timed: words.next().is_some(),
        })
    }
}
