// Reads records: the metrics of a rule, each at most once, in any order.
ghost use Rattle.rulefile.specs.Names.{names_in};
ghost use Rattle.rulefile.specs.Records.{added, default_of, metric_alone, metric_beside, metric_value, metrics_from, no_metric, one_record, put_metric, record_of, records_of, split_at_slash, two_records, wanted_metric, with_metric};
ghost use Rattle.rulefile.specs.Words.{same_word, words_in};
ghost use Rattle.std.specs.Option.{option_map};
ghost use Rattle.std.specs.Prelude.{◌≡◌, codes, position};

use crate::fault::Fault;
use crate::names::Names;
use crate::numbers::signed16;
use crate::rules::{Metric, MetricKind, Record, Records};
use crate::words::split_once;

// The metric that a key names.
impl TryFrom<&[u8]> for MetricKind {
    type Error = Fault;

    ghost try_from_gives = { λ w r. r ≡ wanted_metric w.now };

    fn try_from(key: &[u8]) -> Result<MetricKind, Fault> {
        match key {
            b"xadv" => Ok(MetricKind::XAdvance),
            b"yadv" => Ok(MetricKind::YAdvance),
            b"xpla" => Ok(MetricKind::XPlacement),
            b"ypla" => Ok(MetricKind::YPlacement),
            _ => Err(Fault::Metric),
        }
    }
}

// V
fn read_default(word: &[u8]) -> Result<i16, Fault>
    ensures { result ≡ default_of word.now }
{
    signed16(word).ok_or(Fault::MetricValue)
}

// V with nothing beside it
fn read_alone(word: &[u8]) -> Result<Metric, Fault>
    ensures { result ≡ metric_alone word.now }
{
    let default = read_default(word)?;
    Ok(Metric {
        default,
        beside: None,
    })
}

// V and what stands beside it
fn read_beside(names: &Names, value: &[u8], reference: &[u8]) -> Result<Metric, Fault>
    ensures { result ≡ metric_beside (names_in names.now) value.now reference.now }
{
    let default = read_default(value)?;
    let reference = names.read_reference(reference)?;
    Ok(Metric {
        default,
        beside: Some(reference),
    })
}

// V or V@REF
fn read_value(names: &Names, word: &[u8]) -> Result<Metric, Fault>
    ensures { result ≡ metric_value (names_in names.now) word.now }
{
    match split_once(word, b'@') {
        Some((value, reference)) => read_beside(names, value, reference),
        None => read_alone(word),
    }
}

// The record with one metric more, unless it has that metric.
fn with_metric(mut record: Record, kind: MetricKind, metric: Metric) -> Result<Record, Fault>
    ensures { result ≡ with_metric «record» kind metric }
{
    let held = match kind {
        MetricKind::XAdvance => record.x_advance.replace(metric),
        MetricKind::YAdvance => record.y_advance.replace(metric),
        MetricKind::XPlacement => record.x_placement.replace(metric),
        MetricKind::YPlacement => record.y_placement.replace(metric),
    };
    if held.is_some() {
        return Err(Fault::MetricTwice);
    }
    Ok(record)
}

// The record with one metric more, from its key and its value.
fn put_metric(names: &Names, record: Record, key: &[u8], value: &[u8]) -> Result<Record, Fault>
    ensures { result ≡ put_metric (names_in names.now) «record» key.now value.now }
{
    let kind = MetricKind::try_from(key)?;
    let metric = read_value(names, value)?;
    with_metric(record, kind, metric)
}

// The record with the metric of a word more.
fn add_metric(names: &Names, record: Record, word: &[u8]) -> Result<Record, Fault>
    ensures { result ≡ added (names_in names.now) «record» word.now }
{
    let (key, value) = split_once(word, b'=').ok_or(Fault::Metric)?;
    put_metric(names, record, key, value)
}

// The metrics of the words.
fn read_metrics(names: &Names, words: &[&[u8]]) -> Result<Record, Fault>
    ensures { result ≡ metrics_from (names_in names.now) no_metric (words_in words.now) }
{
    let mut record = Record::default();
    for word in words {
        record = add_metric(names, record, word)?;
    }
    Ok(record)
}

// The record of the words: `-`, or one or more metrics.
pub(crate) fn read_record(names: &Names, words: &[&[u8]]) -> Result<Record, Fault>
    ensures { result ≡ record_of (names_in names.now) (words_in words.now) }
{
    match words {
        [] => Err(Fault::NoRecord),
        [word] if *word == b"-".as_slice() => Ok(Record::default()),
        _ => read_metrics(names, words),
    }
}

// Where the first `/` stands. This cut and that of a word at a byte stay apart: one looks for a word, which clauses see through
// `words_in`, the other for a byte.
fn find_slash(words: &[&[u8]]) -> Option<usize>
    ensures { result ≡ position (λ w. same_word w (codes "/")) (words_in words.now) }
{
    words.iter().position(|word| *word == b"/".as_slice())
}

// What stands before and after the first `/`.
fn split_at_slash<'a>(words: &'a [&'a [u8]]) -> Option<(&'a [&'a [u8]], &'a [&'a [u8]])>
    ensures { option_map (λ p. (words_in p.0.now, words_in p.1.now)) result ≡ split_at_slash (words_in words.now) }
{
    let at = find_slash(words)?;
    Some((&words[..at], &words[at + 1..]))
}

// One record; the second has no metric.
fn read_one(names: &Names, words: &[&[u8]]) -> Result<Records, Fault>
    ensures { result ≡ one_record (names_in names.now) (words_in words.now) }
{
    let first = read_record(names, words)?;
    Ok(Records {
        first,
        second: Record::default(),
    })
}

fn read_two(names: &Names, first: &[&[u8]], second: &[&[u8]]) -> Result<Records, Fault>
    ensures { result ≡ two_records (names_in names.now) (words_in first.now) (words_in second.now) }
{
    let first = read_record(names, first)?;
    let second = read_record(names, second)?;
    Ok(Records { first, second })
}

// The records of the words: one, or two with `/` between.
pub(crate) fn read_records(names: &Names, words: &[&[u8]]) -> Result<Records, Fault>
    ensures { result ≡ records_of (names_in names.now) (words_in words.now) }
{
    match split_at_slash(words) {
        Some((first, second)) => read_two(names, first, second),
        None => read_one(names, words),
    }
}
