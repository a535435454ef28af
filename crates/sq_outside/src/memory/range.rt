/// So many bytes of a file from a place on.
#[derive(Clone, Copy)]
pub struct Range {
    pub at: u64,
    pub count: u64,
}
