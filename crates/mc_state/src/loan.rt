// What a frame call is lent beside the state: a frame, which is only read, and the buffers that an accepted one writes.
use bit_reader::BitString;
use mc_base::Base;
use mc_loan::Loan;

// A frame.
#[derive(Clone, Copy)]
pub struct Lent<'a> {
    pub head: BitString<'a>,
    pub payload: BitString<'a>,
    pub loan: Loan<'a>,
    // 0 to 7
    pub desk: u32,
    pub base: Base<'a>,
}

// Something of each of the four buffers.
#[derive(Clone, Copy, PartialEq, Eq)]
pub struct EachBuffer<T> {
    pub raw: T,
    pub work: T,
    pub output: T,
    pub lfe: T,
}

// The buffers, lent to be written: a struct that derives `Drop`, as what holds a `&mut` does, where `EachBuffer` derives `Copy`.
#[derive(Drop)]
pub struct Buffers<'a> {
    pub raw: &'a mut [f64],
    pub work: &'a mut [f64],
    pub output: &'a mut [f64],
    pub lfe: &'a mut [f64],
}
