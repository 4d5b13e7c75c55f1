// The two passes over the tags: the cells of lists and blocks are counted, then laid out where the counts say.
#[derive(Clone, Copy, PartialEq, Eq)]
pub enum Pass {
    Count,
    Fill,
}

// How many rows and transitions the tables have, how many ids and slots of the text are noted, and which pass it is.
#[derive(Clone, Copy)]
pub struct Plan {
    pub rows: usize,
    pub transitions: usize,
    pub ids: usize,
    pub slots: usize,
    pub pass: Pass,
}
