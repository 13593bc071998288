// A list of calls on one bench of the flat kind, with the same three lists throughout.
use crate::arguments::{Arguments, none};
use crate::reader::Reader;
use crate::run::point;
use anyhow::anyhow;
use bench::Bench;
use kinds::Flat;
use pack::Plain;
use predict::Lag1;
use refusal::Refusal;

// A call on the bench, or another hand's write into a list between two calls.
enum Call<'a> {
    Load { file: &'a [u8] },
    Split { tolerance: Option<u32> },
    Cut,
    Close,
    Mark { at: usize, mark: u8 },
    Point { at: usize, point: Flat },
}

impl<'a> Call<'a> {
    // The next one of a record: its number, its fields, and its arguments.
    fn read(r: &mut Reader<'a>) -> anyhow::Result<Call<'a>> {
        match r.byte()? {
            0 => {
                let file = r.block()?;
                none(r)?;
                Ok(Call::Load { file })
            }
            1 => Ok(Call::Split {
                tolerance: Arguments::read(r)?.tolerance,
            }),
            2 => none(r).map(|_| Call::Cut),
            3 => none(r).map(|_| Call::Close),
            4 => Ok(Call::Mark {
                at: r.size()?,
                mark: r.byte()?,
            }),
            5 => Ok(Call::Point {
                at: r.size()?,
                point: point(r)?,
            }),
            _ => Err(anyhow!("there is no such call")),
        }
    }
}

// A bench, the three lists that it is lent, and the notes of its answers.
#[derive(Drop)]
struct Table {
    bench: Bench<Flat>,
    points: Vec<Flat>,
    marks: Vec<u8>,
    program: Vec<u8>,
    notes: Vec<u8>,
}

impl Table {
    fn new(r: &mut Reader) -> anyhow::Result<Table> {
        let points = r.list(Flat::default())?;
        let marks = r.list(0u8)?;
        let program = r.list(0u8)?;
        none(r)?;
        Ok(Table {
            bench: Bench::new(),
            points,
            marks,
            program,
            notes: Vec::new(r.heap),
        })
    }

    // The low 32 bits of a number.
    fn note_number(&mut self, n: usize) -> anyhow::Result<()> {
        let bytes = (n as u64).to_le_bytes();
        self.notes.extend_from_slice(&bytes[..4])?;
        Ok(())
    }

    // 0 and the numbers of an answer, or a refusal's number and its place.
    fn note<const N: usize>(&mut self, answer: Result<[usize; N], Refusal>) -> anyhow::Result<()> {
        match answer {
            Ok(numbers) => {
                self.notes.push(0)?;
                for n in &numbers {
                    self.note_number(*n)?;
                }
                Ok(())
            }
            Err(refusal) => {
                self.notes.push(refusal.why.number())?;
                self.note_number(refusal.place)
            }
        }
    }

    fn make(&mut self, call: Call) -> anyhow::Result<()> {
        let points = &mut self.points;
        let marks = &mut self.marks;
        match call {
            Call::Load { file } => {
                let answer = self.bench.load::<Lag1, Plain>(file, points.as_mut_slice());
                self.note(answer.map(|length| [length]))
            }
            Call::Split { tolerance } => {
                let answer = self
                    .bench
                    .split(tolerance, points.as_slice(), marks.as_mut_slice());
                self.note(answer.map(|(kept, waited)| [kept, waited]))
            }
            Call::Cut => {
                let program = self.program.as_mut_slice();
                let answer = self.bench.cut(points.as_slice(), marks.as_slice(), program);
                self.note(answer.map(|length| [length]))
            }
            Call::Close => {
                let answer = self.bench.close(self.program.as_mut_slice());
                self.note(answer.map(|length| [length]))
            }
            Call::Mark { at, mark } => {
                if let Some(place) = marks.get_mut(at) {
                    *place = mark;
                }
                Ok(())
            }
            Call::Point { at, point } => {
                if let Some(place) = points.get_mut(at) {
                    *place = point;
                }
                Ok(())
            }
        }
    }
}

// Each call's answer, and then the whole program list.
pub fn answers(r: &mut Reader) -> anyhow::Result<Vec<u8>> {
    let mut table = Table::new(r)?;
    let count = r.byte()?;
    for _ in 0..count {
        table.make(Call::read(r)?)?;
    }
    let Table {
        mut notes,
        program,
        ..
    } = table;
    notes.extend_from_slice(program.as_slice())?;
    Ok(notes)
}
