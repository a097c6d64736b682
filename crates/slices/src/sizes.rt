// K, M, N, T and the number of additional price lists of a job.

// How many boxes, grocers, offers and tallies a job has, K, M, N and T, and how many additional price lists.
#[derive(Clone, Copy)]
pub struct Sizes {
    pub boxes: u16,
    pub grocers: u16,
    pub offers: u16,
    pub tallies: u16,
    pub lists: u16,
}
