// Holds the library to the stored corpus, whose expected answers another program made, and names each case that differs.
#![tactic(auto)]

mod arguments;
mod calls;
mod reader;
mod run;

use anyhow::{Context, anyhow};
use range::range::Range;
use reader::Reader;
use run::{CutRecord, StoreRecord};
use std::fs;

// 0, or the number of the reason why there is no such range.
fn range_answer(r: &mut Reader) -> anyhow::Result<Vec<u8>> {
    let words = r.words()?;
    arguments::none(r)?;
    let number = match Range::try_from(words) {
        Ok(_) => 0,
        Err(why) => why.number(),
    };
    Ok(vec![in r.heap; number]?)
}

// What the library gives for the next case.
fn found(r: &mut Reader) -> anyhow::Result<Vec<u8>> {
    match r.byte()? {
        0 => run::answer::<CutRecord>(r),
        1 => run::answer::<StoreRecord>(r),
        2 => range_answer(r),
        3 => calls::answers(r),
        _ => Err(anyhow!("there is no such case")),
    }
}

fn main(rt: HostRuntime) -> anyhow::Result<()> {
    let corpus = fs::read(&rt, "corpus.bin")?;
    let mut r = Reader::new(rt.alloc(), corpus.as_slice());
    let mut cases: u64 = 0;
    let mut differ: u64 = 0;
    // a case takes a byte at least
    for _ in 0..corpus.len() {
        if r.is_done() {
            break;
        }
        let length = r.byte()?;
        let name = r.bytes(usize::from(length))?;
        let shown = std::str::from_utf8(name).unwrap_or("whose name is no text");
        let got = found(&mut r).context(format_args!("in the case {shown}"))?;
        let expected = r.block()?;
        cases = cases.saturating_add(1);
        if got.as_slice() != expected {
            differ = differ.saturating_add(1);
            let name = std::str::from_utf8(name)?;
            println!(rt; "differs: {name}")?;
        }
    }
    println!(rt; "{cases} cases, {differ} differ")?;
    Ok(())
}
