// What a program asks of a file that was read. Each question goes through all statements.
ghost use Rattle.rulefile.specs.Queries.{how_many, is_kind, kind_of, metric_uses, of_kind, record_uses, records_use, set_uses, statement_uses, using_entry};
ghost use Rattle.rulefile.specs.Entries.{said};
ghost use Rattle.rulefile.specs.Files.{file_of};
ghost use Rattle.std.specs.Prelude.{◌≡◌};

use crate::rules::{
    Metric, Record, Records, Reference, RuleFile, SetReference, Statement, StatementKind,
};

fn metric_uses(metric: Option<Metric>, entry: usize) -> bool
    ensures { result ≡ metric_uses metric entry }
{
    metric.and_then(|metric| metric.beside) == Some(Reference::Entered(entry))
}

fn record_uses(record: Record, entry: usize) -> bool
    ensures { result ≡ record_uses «record» entry }
{
    metric_uses(record.x_advance, entry)
        || metric_uses(record.y_advance, entry)
        || metric_uses(record.x_placement, entry)
        || metric_uses(record.y_placement, entry)
}

fn records_use(records: Records, entry: usize) -> bool
    ensures { result ≡ records_use records entry }
{
    record_uses(records.first, entry) || record_uses(records.second, entry)
}

fn set_uses(reference: SetReference, entry: usize) -> bool
    ensures { result ≡ set_uses reference entry }
{
    reference == SetReference::EnteredSet(entry)
}

impl Statement {
    // Which kind of statement it is.
    fn kind(&self) -> StatementKind
        ensures { result ≡ kind_of (said self.now) }
    {
        match self {
            Statement::Set { .. } => StatementKind::Set,
            Statement::Device { .. } => StatementKind::Device,
            Statement::Deltas { .. } => StatementKind::Deltas,
            Statement::Single { .. } => StatementKind::Single,
            Statement::Pair { .. } => StatementKind::Pair,
            Statement::Class { .. } => StatementKind::Class,
            Statement::Break => StatementKind::Break,
            Statement::Build => StatementKind::Build,
            Statement::Ask { .. } => StatementKind::Ask,
        }
    }

    // Whether it is of a kind. A function of its own: with `==` in the closure of `count` the proof of that did not close.
    fn is(&self, kind: StatementKind) -> bool
        ensures { result ≡ is_kind kind (said self.now) }
    {
        self.kind() == kind
    }

    // Whether a rule refers to an entry by its name.
    fn uses(&self, entry: usize) -> bool
        ensures { result ≡ statement_uses (said self.now) entry }
    {
        match self {
            Statement::Single { record, .. } => record_uses(*record, entry),
            Statement::Pair { records, .. } => records_use(*records, entry),
            Statement::Class {
                first,
                second,
                records,
            } => {
                set_uses(*first, entry) || set_uses(*second, entry) || records_use(*records, entry)
            }
            _ => false,
        }
    }
}

impl RuleFile {
    // How many statements of a kind the file has.
    pub fn count(&self, kind: StatementKind) -> usize
        ensures { result ≡ how_many (of_kind kind) (file_of self.now).statements }
    {
        self.statements
            .iter()
            .filter(|line| line.statement.is(kind))
            .count()
    }

    // How many statements refer to an entry by its name.
    pub fn uses(&self, place: usize) -> usize
        ensures { result ≡ how_many (using_entry place) (file_of self.now).statements }
    {
        self.statements
            .iter()
            .filter(|line| line.statement.uses(place))
            .count()
    }
}
