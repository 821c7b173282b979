ghost use Rattle.std.specs.Prelude.{◌≡◌, []};
ghost use Rattle.pg_model.specs.declared.script.Mode.TheVariants.{Stepped};
ghost use Rattle.pg_model.specs.Scripts.{IsScript};

use crate::{Catalogue, Insert, SqlError, Statement};
use pg_lists::{IsSame, Items, TryCopy};
use pg_names::{NamedItems, Names};
use std::alloc::{AllocError, Global};

/// Whether the order of a script's steps is fixed, or any session may move at any time.
#[derive(Clone, Copy, Debug, PartialEq, Eq)]
pub enum Mode {
    Stepped,
    Free,
}

/// An INSERT of a setup line, and that line's number in the script, from 1.
#[derive(Drop)]
pub struct SetupInsert {
    pub number: u32,
    pub insert: Insert,
}

/// The INSERTs of the setup lines, in the order written.
pub type SetupRows = Items<SetupInsert>;

/// What a line says that is no setup line.
#[derive(Drop)]
pub enum Content {
    /// A statement is given to a session: analysed, or the first error that its analysis found.
    Given {
        session: u32,
        statement: Result<Statement, SqlError>,
    },
}

/// A line that is no setup line, and its number in the script, from 1.
#[derive(Drop)]
pub struct Line {
    pub number: u32,
    pub content: Content,
}

/// The lines of a script that are no setup lines, in the order written.
pub type Lines = Items<Line>;

/// A script as it was read.
///
/// Sessions are numbered from 0 in the order in which they are first named, tables from 0 in order
/// of declaration. Its type keeps that each number in it is one that exists, that kinds fit over
/// its catalogue, and that its limits are kept.
#[derive(Drop)]
pub struct Script {
    /// The version of the script language.
    pub version: u32,
    pub mode: Mode,
    pub sessions: Names,
    pub catalogue: Catalogue,
    pub setup: SetupRows,
    pub lines: Lines,
    pub ghost valid: { IsScript sessions catalogue setup lines },
}

impl Script {
    /// The stepped script of version 1 without sessions, tables and lines.
    pub fn empty(alloc: Global) -> Script
        ensures version { result.version ≡ 1 }
        ensures mode { result.mode ≡ Stepped }
        ensures sessions { result.sessions ≡ [] }
        ensures catalogue { result.catalogue ≡ [] }
        ensures setup { result.setup ≡ [] }
        ensures lines { result.lines ≡ [] }
    {
        Script {
            version: 1,
            mode: Mode::Stepped,
            sessions: Names::new(alloc),
            catalogue: NamedItems::new(alloc),
            setup: Items::new(alloc),
            lines: Items::new(alloc),
        }
    }
}

impl TryCopy for SetupInsert {
    fn try_copy(&self, alloc: Global) -> Result<SetupInsert, AllocError> {
        let insert = self.insert.try_copy(alloc)?;
        Ok(SetupInsert {
            number: self.number,
            insert,
        })
    }
}

impl IsSame for SetupInsert {
    fn is_same(&self, other: &SetupInsert) -> bool {
        self.number == other.number && self.insert.is_same(&other.insert)
    }
}

impl TryCopy for Content {
    fn try_copy(&self, alloc: Global) -> Result<Content, AllocError> {
        match self {
            Content::Given { session, statement } => {
                let statement = statement.try_copy(alloc)?;
                Ok(Content::Given {
                    session: *session,
                    statement,
                })
            }
        }
    }
}

impl IsSame for Content {
    fn is_same(&self, other: &Content) -> bool {
        match (self, other) {
            (
                Content::Given {
                    session: a,
                    statement: x,
                },
                Content::Given {
                    session: b,
                    statement: y,
                },
            ) => a == b && x.is_same(y),
        }
    }
}

impl TryCopy for Line {
    fn try_copy(&self, alloc: Global) -> Result<Line, AllocError> {
        let content = self.content.try_copy(alloc)?;
        Ok(Line {
            number: self.number,
            content,
        })
    }
}

impl IsSame for Line {
    fn is_same(&self, other: &Line) -> bool {
        self.number == other.number && self.content.is_same(&other.content)
    }
}

impl TryCopy for Script {
    fn try_copy(&self, alloc: Global) -> Result<Script, AllocError> {
        let sessions = self.sessions.try_copy(alloc)?;
        let catalogue = self.catalogue.try_copy(alloc)?;
        let setup = self.setup.try_copy(alloc)?;
        let lines = self.lines.try_copy(alloc)?;
        Ok(Script {
            version: self.version,
            mode: self.mode,
            sessions,
            catalogue,
            setup,
            lines,
        })
    }
}

impl IsSame for Script {
    fn is_same(&self, other: &Script) -> bool {
        self.version == other.version
            && self.mode == other.mode
            && self.sessions.is_same(&other.sessions)
            && self.catalogue.is_same(&other.catalogue)
            && self.setup.is_same(&other.setup)
            && self.lines.is_same(&other.lines)
    }
}
