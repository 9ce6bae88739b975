ghost use Rattle.std.specs.Prelude.{◌≡◌, IfOk};

use farkas_check::Cert;
use sqlite_items::Items;
use std::alloc::Global;
use term_store::NoMemory;

/// How a row is shown from rows: the finder is asked for a certificate, or one is given.
#[derive(Drop)]
pub enum Shown {
    Find,
    Given(Cert),
}

impl Shown {
    /// An equal one.
    pub fn copy(&self, alloc: Global) -> Result<Shown, NoMemory>
        ensures { IfOk result (λ shown. shown ≡ self.now) }
    {
        match self {
            Shown::Find => Ok(Shown::Find),
            Shown::Given(certificate) => match certificate.copy(alloc) {
                Ok(copy) => Ok(Shown::Given(copy)),
                Err(_) => Err(NoMemory),
            },
        }
    }
}

/// How the rows of a list are shown: the finder is asked for each, or a way is given for each.
#[derive(Drop)]
pub enum Shows {
    Find,
    Each(Items<Shown>),
}

/// Equal ones.
fn copy_ways(alloc: Global, ways: &[Shown]) -> Result<Items<Shown>, NoMemory>
    ensures { IfOk result (λ copies. copies ≡ ways.now) }
{
    let mut copies = Items::new(alloc);
    for way in ways {
        copies.push(way.copy(alloc)?)?;
    }
    Ok(copies)
}

impl Shows {
    /// An equal one.
    pub fn copy(&self, alloc: Global) -> Result<Shows, NoMemory>
        ensures { IfOk result (λ shows. shows ≡ self.now) }
    {
        match self {
            Shows::Find => Ok(Shows::Find),
            Shows::Each(ways) => Ok(Shows::Each(copy_ways(alloc, ways.as_slice())?)),
        }
    }
}
