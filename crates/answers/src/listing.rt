// What a listing answers beside its rows.
#[derive(Clone, Copy, PartialEq, Eq, Debug)]
pub struct Listing {
    pub rows: usize,
    pub effort: u32,
}
