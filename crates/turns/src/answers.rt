// What a worst answers.

// A line's greatest settle time, and its final value under the first vector that reaches it. It tells of all vectors, where
// `Settled` tells of one.
#[derive(Clone, Copy)]
pub struct Greatest<T> {
    pub time: T,
    pub value: bool,
}
