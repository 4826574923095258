// Why a code was not put or taken.
#[derive(Clone, Copy, PartialEq, Eq, Debug)]
pub enum CodeFault {
    // fewer bytes than a code has
    Short,
    // bytes that no value puts, or a number that no value has
    NoCode,
}
