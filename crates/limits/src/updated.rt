use crate::answer::Answer;

// What a call answers, and the filter, or the half of it, that it leaves.
#[derive(Clone, Copy)]
pub struct Updated<T> {
    pub answer: Answer,
    pub filter: T,
}

// What a step would store, and whether every number of it is finite.
#[derive(Clone, Copy)]
pub struct Tried<T> {
    pub finite: bool,
    pub value: T,
}
