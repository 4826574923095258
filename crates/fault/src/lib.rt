// Refusals: what was refused, at which place and by which layer. Each layer has a fault of its own, which holds the faults
// below it whole. Number, place and layer are methods of each: the matches differ in what lies below, so that a trait or a
// generic fault would only repeat them.
#![tactic(auto)]

ghost use Rattle.std.specs.Prelude.{◌≡◌};
ghost use Rattle.fault.specs.Faults.{number_of, place_of, cell_number_of, cell_place_of, cell_layer_of, work_number_of, work_place_of, card_number_of, card_place_of, card_layer_of};
ghost use Rattle.fault.specs.declared.CardFault.TheVariants as card;
ghost use Rattle.fault.specs.declared.CellFault.TheVariants as cell;
ghost use Rattle.fault.specs.declared.Layer.TheVariants.{Text, Work};
ghost use Rattle.fault.specs.declared.TextFault.TheVariants.{NoMemory};

use std::alloc::{AllocError, AllocFailed};

// The layer that refused: reading texts, laying cells, work on watches and summaries, cards.
#[derive(Clone, Copy, PartialEq, Eq, Debug)]
pub enum Layer {
    Text,
    Cells,
    Work,
    Card,
}

// Why a text was refused, with the refusal's number, which the project's table of refusals fixes. It is the discriminant (`as u8`), as
// in the causes below.
#[derive(Clone, Copy, PartialEq, Eq, Debug)]
pub enum TextCause {
    // a rule text of 0 or over 96 bytes
    Length = 1,
    // a byte that is not allowed where it stands
    Byte = 2,
    // the text ends early
    Early = 3,
    // bytes are left over
    LeftOver = 4,
    // a 49th node
    Nodes = 5,
    // no four hexadecimal digits
    Hexadecimal = 19,
}

// What went wrong with a text. Places count bytes from 0.
#[derive(Clone, Copy, PartialEq, Eq, Debug)]
pub enum TextFault {
    Refused(TextCause, usize),
    // Want of memory, which has no number and no place.
    NoMemory,
}

impl TextFault {
    // The refusal's number; none for want of memory.
    pub fn number(&self) -> Option<u8>
        ensures { result ≡ number_of self.now }
    {
        match self {
            TextFault::Refused(cause, _) => Some(*cause as u8),
            TextFault::NoMemory => None,
        }
    }

    // The refusal's place; none for want of memory.
    pub fn place(&self) -> Option<usize>
        ensures { result ≡ place_of self.now }
    {
        match self {
            TextFault::Refused(_, place) => Some(*place),
            TextFault::NoMemory => None,
        }
    }

    // The layer: a text fault's is always the text layer.
    pub fn layer(&self) -> Layer
        ensures { result ≡ Text }
    {
        Layer::Text
    }
}

// Whatever finds no memory is a text fault of want of memory, so that `?` carries it. This and the conversions below are
// written by hand, since a derive's promise nothing, and clauses name the fault that a `?` makes.
impl From<AllocError> for TextFault {
    ghost from_gives = { λ _ r. r ≡ NoMemory };

    fn from(_error: AllocError) -> TextFault {
        TextFault::NoMemory // none at all
    }
}

impl<T: Drop> From<AllocFailed<T>> for TextFault {
    ghost from_gives = { λ _ r. r ≡ NoMemory };

    fn from(_refused: AllocFailed<T>) -> TextFault {
        TextFault::NoMemory // none for the value
    }
}

// Why the cells of a rule were not laid, with the refusal's number.
#[derive(Clone, Copy, PartialEq, Eq, Debug)]
pub enum CellCause {
    // a ninth cell
    Ninth = 6,
}

// What went wrong with laying the cells of a rule text.
#[derive(Clone, Copy, PartialEq, Eq, Debug)]
pub enum CellFault {
    // The text is at fault.
    Text(TextFault),
    Refused(CellCause, usize),
}

impl CellFault {
    // The refusal's number; none for want of memory.
    pub fn number(&self) -> Option<u8>
        ensures { result ≡ cell_number_of self.now }
    {
        match self {
            CellFault::Text(fault) => fault.number(),
            CellFault::Refused(cause, _) => Some(*cause as u8),
        }
    }

    // The refusal's place; none for want of memory.
    pub fn place(&self) -> Option<usize>
        ensures { result ≡ cell_place_of self.now }
    {
        match self {
            CellFault::Text(fault) => fault.place(),
            CellFault::Refused(_, place) => Some(*place),
        }
    }

    // The layer that refused.
    pub fn layer(&self) -> Layer
        ensures { result ≡ cell_layer_of self.now }
    {
        match self {
            CellFault::Text(fault) => fault.layer(),
            CellFault::Refused(_, _) => Layer::Cells,
        }
    }
}

// A text fault is carried whole by `?`.
impl From<TextFault> for CellFault {
    ghost from_gives = { λ e r. r ≡ cell.Text e };

    fn from(error: TextFault) -> CellFault {
        CellFault::Text(error)
    }
}

// Why a call on a watch or a summary was refused, with the refusal's number.
#[derive(Clone, Copy, PartialEq, Eq, Debug)]
pub enum WorkCause {
    // the rule texts differ
    Differs = 7,
    // a buffer is too short
    BufferShort = 8,
    // the spare is too short
    SpareShort = 9,
    // a letter is unfit
    Unfit = 10,
    // the count would be above 1,000,000,000
    CountAbove = 11,
    // a report before a letter
    NoLetter = 12,
}

// What a call on a watch or a summary refuses: one variant, under the name that it has in every fault.
#[derive(Clone, Copy, PartialEq, Eq, Debug)]
pub enum WorkFault {
    Refused(WorkCause, usize),
}

impl WorkFault {
    // The refusal's number.
    pub fn number(&self) -> u8
        ensures { result ≡ work_number_of self.now }
    {
        match self {
            WorkFault::Refused(cause, _) => *cause as u8,
        }
    }

    // The refusal's place.
    pub fn place(&self) -> usize
        ensures { result ≡ work_place_of self.now }
    {
        match self {
            WorkFault::Refused(_, place) => *place,
        }
    }

    // The layer: a work fault's is always the work layer.
    pub fn layer(&self) -> Layer
        ensures { result ≡ Work }
    {
        Layer::Work
    }
}

// Why a card was refused, with the refusal's number.
#[derive(Clone, Copy, PartialEq, Eq, Debug)]
pub enum CardCause {
    // a field's tag is wrong, the card is cut short, or bytes are left over
    Field = 13,
    // a field's length is wrong
    FieldLength = 14,
    // another scale's number
    OtherScale = 15,
    // bytes that are no code
    Code = 16,
    // a table that no volume has
    Table = 17,
    // the bytes for writing are too few
    OutputShort = 18,
}

// What went wrong with a card.
#[derive(Clone, Copy, PartialEq, Eq, Debug)]
pub enum CardFault {
    // The rule text in it is at fault, or its cells.
    Cell(CellFault),
    // The summary, its rule or the count is at fault.
    Work(WorkFault),
    Refused(CardCause, usize),
}

impl CardFault {
    // The refusal's number; none for want of memory.
    pub fn number(&self) -> Option<u8>
        ensures { result ≡ card_number_of self.now }
    {
        match self {
            CardFault::Cell(fault) => fault.number(),
            CardFault::Work(fault) => Some(fault.number()),
            CardFault::Refused(cause, _) => Some(*cause as u8),
        }
    }

    // The refusal's place; none for want of memory.
    pub fn place(&self) -> Option<usize>
        ensures { result ≡ card_place_of self.now }
    {
        match self {
            CardFault::Cell(fault) => fault.place(),
            CardFault::Work(fault) => Some(fault.place()),
            CardFault::Refused(_, place) => Some(*place),
        }
    }

    // The layer that refused.
    pub fn layer(&self) -> Layer
        ensures { result ≡ card_layer_of self.now }
    {
        match self {
            CardFault::Cell(fault) => fault.layer(),
            CardFault::Work(fault) => fault.layer(),
            CardFault::Refused(_, _) => Layer::Card,
        }
    }
}

// A cell fault, with the text fault that may stand in it, is carried whole by `?`.
impl From<CellFault> for CardFault {
    ghost from_gives = { λ e r. r ≡ card.Cell e };

    fn from(error: CellFault) -> CardFault {
        CardFault::Cell(error)
    }
}

// So is a work fault.
impl From<WorkFault> for CardFault {
    ghost from_gives = { λ e r. r ≡ card.Work e };

    fn from(error: WorkFault) -> CardFault {
        CardFault::Work(error)
    }
}
