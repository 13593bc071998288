// Takes numbers, bytes and lists from the front of the corpus.
use anyhow::Context;
use range::words::Words;
use std::alloc::Global;

const SHORT: &str = "the corpus ends inside a record";

#[derive(Drop)]
pub struct Reader<'a> {
    // where lists are made
    pub heap: Global,
    rest: &'a [u8],
}

impl<'a> Reader<'a> {
    pub fn new(heap: Global, bytes: &'a [u8]) -> Reader<'a> {
        Reader { heap, rest: bytes }
    }

    pub fn is_done(&self) -> bool {
        self.rest.is_empty()
    }

    // As many bytes as the array has.
    pub fn take<const N: usize>(&mut self) -> anyhow::Result<[u8; N]> {
        let (front, rest) = self.rest.split_first_chunk().context(SHORT)?;
        self.rest = rest;
        Ok(*front)
    }

    pub fn byte(&mut self) -> anyhow::Result<u8> {
        Ok(u8::from_le_bytes(self.take()?))
    }

    pub fn number(&mut self) -> anyhow::Result<u32> {
        Ok(u32::from_le_bytes(self.take()?))
    }

    pub fn signed(&mut self) -> anyhow::Result<i32> {
        Ok(i32::from_le_bytes(self.take()?))
    }

    // A length of a list, or a place in one.
    pub fn size(&mut self) -> anyhow::Result<usize> {
        Ok(self.number()? as usize)
    }

    // A range's bits and ends.
    pub fn words(&mut self) -> anyhow::Result<Words> {
        Ok(Words {
            bits: self.byte()?,
            lower: self.number()?,
            upper: self.number()?,
        })
    }

    // So many bytes.
    pub fn bytes(&mut self, n: usize) -> anyhow::Result<&'a [u8]> {
        let (front, rest) = self.rest.split_at_checked(n).context(SHORT)?;
        self.rest = rest;
        Ok(front)
    }

    // A length, and so many bytes.
    pub fn block(&mut self) -> anyhow::Result<&'a [u8]> {
        let n = self.size()?;
        self.bytes(n)
    }

    // A length, and a list of so many entries alike.
    pub fn list<T: Copy + Clone + Drop>(&mut self, entry: T) -> anyhow::Result<Vec<T>> {
        let n = self.size()?;
        Ok(vec![in self.heap; entry; n]?)
    }
}
