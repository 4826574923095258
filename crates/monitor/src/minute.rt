// A letter to be read.
use cells::laid::Laid;

// A rule's cells and the letter that is read with them.
#[derive(Drop)]
pub(crate) struct Minute<'a, L> {
    pub(crate) laid: &'a Laid,
    pub(crate) letter: &'a L,
}
