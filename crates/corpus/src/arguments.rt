// What a call of the corpus is given besides its fields: how many arguments, and each by its letter and its value.
use crate::reader::Reader;
use anyhow::{anyhow, ensure};

// The arguments that the library has a use for.
#[derive(Default, Drop)]
pub struct Arguments {
    pub tolerance: Option<u32>,
}

impl Arguments {
    pub fn read(r: &mut Reader) -> anyhow::Result<Arguments> {
        let mut arguments = Arguments::default();
        let count = r.byte()?;
        for _ in 0..count {
            arguments.take(r)?;
        }
        Ok(arguments)
    }

    // One more.
    fn take(&mut self, r: &mut Reader) -> anyhow::Result<()> {
        match r.byte()? {
            b't' => {
                let value = r.number()?;
                ensure!(
                    self.tolerance.replace(value).is_none(),
                    "a call is given two tolerances: give it one, in compare/"
                );
                Ok(())
            }
            b'o' => Err(unknown("origin")),
            b'b' => Err(unknown("budget")),
            letter => Err(anyhow!(
                "no argument has the letter of byte {letter}: compare/README.md has the letters"
            )),
        }
    }
}

// An argument that has a letter, and that no call of the library takes.
fn unknown(name: &str) -> anyhow::Error {
    anyhow!("the argument {name} is not known to this library: take it out of the case in compare/")
}

// The arguments of a call that takes none.
pub fn none(r: &mut Reader) -> anyhow::Result<()> {
    let given = Arguments::read(r)?;
    ensure!(
        given.tolerance.is_none(),
        "a tolerance of a call that takes none: take it out of the case in compare/"
    );
    Ok(())
}
