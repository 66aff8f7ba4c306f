ghost use Rattle.std.specs.Prelude.{◌<◌, IfSome};

use anyhow::anyhow;
use columns::column_list::ColumnList;
use constraints::constraints::{Constraint, Constraints};
use dependencies::functional_dependencies::{
    Dependency, FunctionalDependence, FunctionalDependencies,
};
use join_type::{JOIN_TYPES, JoinType};
use names::column::Column;
use names::error::Refusal;
use names::name::{FULL_NAME_BYTES, FullName, Text};
use names::table_reference::TableReference;
use schemas::dfschema::{DFSchema, Field, Kind};
use std::alloc::{AllocError, AllocFailed, Global};
use std::str::Split;

/// Why a case is not answered with what its call gives.
#[derive(Debug, Drop)]
pub enum Stop {
    /// The program cannot go on: the line is no case, or memory runs out.
    Failed(anyhow::Error),
    /// The library refuses the case: its call, or an argument, and then the rest of the line is not read.
    Refused(Refusal),
}

pub type Reading<T> = Result<T, Stop>;

impl From<anyhow::Error> for Stop {
    fn from(error: anyhow::Error) -> Stop {
        Stop::Failed(error)
    }
}

impl From<AllocError> for Stop {
    fn from(error: AllocError) -> Stop {
        Stop::Failed(error.into())
    }
}

impl<T: Drop> From<AllocFailed<T>> for Stop {
    fn from(error: AllocFailed<T>) -> Stop {
        Stop::from(AllocError::from(error))
    }
}

impl From<Refusal> for Stop {
    fn from(refusal: Refusal) -> Stop {
        Stop::Refused(refusal)
    }
}

/// The word stands where something else has to.
pub fn unfit(expected: &str, word: &str) -> Stop {
    Stop::Failed(anyhow!("expected {expected}, found {word:?}"))
}

// a hexadecimal digit, in lower case
fn digit(byte: u8) -> Option<u8>
    ensures { IfSome result (λ d. d < 16) }
{
    match byte {
        b'0'..=b'9' => Some(byte - b'0'),
        b'a'..=b'f' => Some(byte - b'a' + 10),
        _ => None,
    }
}

// the byte that two hexadecimal digits write
fn byte_of(pair: &[u8]) -> Option<u8> {
    match pair {
        [high, low] => Some(16 * digit(*high)? + digit(*low)?),
        _ => None,
    }
}

/// The words of a case that have not been read yet.
#[derive(Drop)]
pub struct Case<'a> {
    heap: Global,
    words: Split<'a, char>,
}

impl<'a> Case<'a> {
    pub fn new(heap: Global, line: &'a str) -> Case<'a> {
        Case {
            heap,
            words: line.split(' '),
        }
    }

    pub fn heap(&self) -> Global {
        self.heap
    }

    pub fn word(&mut self) -> Reading<&'a str> {
        self.words.next().ok_or_else(|| anyhow!(
            "expected a word, found the end of the line"
        ).into())
    }

    /// The end of the line.
    pub fn end(&mut self) -> Reading<()> {
        match self.words.next() {
            Some(word) => Err(unfit("the end of the line", word)),
            None => Ok(()),
        }
    }

    pub fn number(&mut self) -> Reading<usize> {
        let word = self.word()?;
        word.parse::<usize>().map_err(|_| unfit("a number", word))
    }

    pub fn flag(&mut self) -> Reading<bool> {
        match self.word()? {
            "0" => Ok(false),
            "1" => Ok(true),
            word => Err(unfit("a flag, 0 or 1", word)),
        }
    }

    // how many, then each
    fn list<T: Drop, F: Fn(&mut Case<'a>) -> Reading<T>>(&mut self, item: F) -> Reading<Vec<T>>
        requires { F.IsAlwaysCallable item }
    {
        let count = self.number()?;
        let mut items = Vec::new(self.heap);
        for _ in 0..count {
            items.push(item(self)?)?;
        }
        Ok(items)
    }

    // a number that no column has is more than fits
    fn column_number(&mut self) -> Reading<u16> {
        u16::try_from(self.number()?).map_err(|_| Stop::Refused(Refusal::Oversize))
    }

    pub fn numbers(&mut self) -> Reading<ColumnList> {
        let numbers = self.list(Case::column_number)?;
        Ok(ColumnList::new(numbers.as_slice())?)
    }

    // the bytes of a name or a text
    fn bytes(&mut self) -> Reading<Vec<u8>> {
        let word = self.word()?;
        if let Some(plain) = word.strip_prefix('\'') {
            return Ok(plain.as_bytes().to_vec(self.heap)?);
        }
        let Some(digits) = word.strip_prefix('#') else {
            return Err(unfit("a name, with ' or # before it", word));
        };
        digits
            .as_bytes()
            .chunks(2)
            .map(|pair| byte_of(pair).ok_or_else(|| unfit("two hexadecimal digits a byte", word)))
            .try_collect(self.heap)
    }

    pub fn text<const N: usize>(&mut self) -> Reading<Text<N>> {
        Ok(Text::new(self.bytes()?.as_slice())?)
    }

    pub fn texts(&mut self) -> Reading<Vec<FullName>> {
        self.list(Case::text::<FULL_NAME_BYTES>)
    }

    pub fn reference(&mut self) -> Reading<Option<TableReference>> {
        match self.word()? {
            "n" => Ok(None),
            "b" => Ok(Some(TableReference::bare(self.text()?))),
            "p" => Ok(Some(TableReference::partial(self.text()?, self.text()?))),
            "f" => Ok(Some(TableReference::full(self.text()?, self.text()?, self.text()?))),
            word => Err(unfit("a reference, n, b, p or f", word)),
        }
    }

    /// A reference that is there.
    pub fn table(&mut self) -> Reading<TableReference> {
        match self.reference()? {
            Some(reference) => Ok(reference),
            None => Err(unfit("a reference, b, p or f", "n")),
        }
    }

    fn kind(&mut self) -> Reading<Kind> {
        match self.word()? {
            "N" => Ok(Kind::Number),
            "C" => Ok(Kind::Code),
            word => Err(unfit("a kind, N or C", word)),
        }
    }

    fn field(&mut self) -> Reading<Field> {
        Ok(Field {
            column: Column::new(self.reference()?, self.text()?),
            kind: self.kind()?,
            nullable: self.flag()?,
        })
    }

    /// Columns, whatever their names.
    pub fn columns(&mut self) -> Reading<DFSchema> {
        let fields = self.list(Case::field)?;
        Ok(DFSchema::new_unchecked(fields.as_slice())?)
    }

    pub fn mode(&mut self) -> Reading<Dependency> {
        match self.word()? {
            "S" => Ok(Dependency::Single),
            "M" => Ok(Dependency::Multi),
            word => Err(unfit("a mode, S or M", word)),
        }
    }

    fn dependence(&mut self) -> Reading<FunctionalDependence> {
        let mode = self.mode()?;
        let nullable = self.flag()?;
        let sources = self.numbers()?;
        let targets = self.numbers()?;
        Ok(FunctionalDependence::new(sources, targets, nullable).with_mode(mode))
    }

    pub fn dependencies(&mut self) -> Reading<FunctionalDependencies> {
        let dependencies = self.list(Case::dependence)?;
        Ok(FunctionalDependencies::new(dependencies.as_slice())?)
    }

    /// Columns and dependencies that list no others.
    pub fn schema(&mut self) -> Reading<DFSchema> {
        let columns = self.columns()?;
        let dependencies = self.dependencies()?;
        columns.with_functional_dependencies(dependencies).map_err(|_| anyhow!(
            "a dependency of a schema lists a column that it lacks"
        ).into())
    }

    fn key(&mut self) -> Reading<Constraint> {
        match self.word()? {
            "P" => Ok(Constraint::PrimaryKey(self.numbers()?)),
            "U" => Ok(Constraint::Unique(self.numbers()?)),
            word => Err(unfit("a key, P or U", word)),
        }
    }

    pub fn keys(&mut self) -> Reading<Constraints> {
        let keys = self.list(Case::key)?;
        Ok(Constraints::new_unverified(keys.as_slice())?)
    }

    pub fn optional_keys(&mut self) -> Reading<Option<Constraints>> {
        match self.word()? {
            "none" => Ok(None),
            "some" => Ok(Some(self.keys()?)),
            word => Err(unfit("none or some", word)),
        }
    }

    pub fn join_type(&mut self) -> Reading<JoinType> {
        let word = self.word()?;
        JOIN_TYPES
            .iter()
            .map(|record| record.join_type)
            .find(|join_type| join_type.name() == word)
            .ok_or_else(|| unfit("a join type", word))
    }
}
