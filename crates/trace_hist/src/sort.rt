//! The order in which entries are printed.

ghost use Rattle.std.specs.Prelude.{◌≡◌, map, IfOk, OnOk, false};
ghost use Rattle.hist_entries.specs.PrintOrder as order;

use hist_entries::{EntriesCopy, HistRow, compare_keys, sum_at};
use std::alloc::{AllocError, Global};
use std::cmp::Ordering;
use trace_trigger::{SortRule, SortSource};

fn compare_by(source: SortSource, left: &HistRow, right: &HistRow) -> Ordering
    ensures { result ≡ order.directed false source (order.row_in left.now) (order.row_in right.now) }
{
    match source {
        SortSource::Key(index) => compare_keys(&left.keys, &right.keys, index),
        SortSource::Value(index) => sum_at(&left.sums, index).cmp(&sum_at(&right.sums, index)),
        SortSource::Hitcount => left.hitcount.cmp(&right.hitcount),
    }
}

fn compare_as(rule: SortRule, left: &HistRow, right: &HistRow) -> Ordering
    ensures { result ≡ order.directed rule.descending rule.source
        (order.row_in left.now) (order.row_in right.now) }
{
    if rule.descending {
        compare_by(rule.source, right, left)
    } else {
        compare_by(rule.source, left, right)
    }
}

/// By each sort key in turn.
fn compare(rules: &[SortRule], left: &HistRow, right: &HistRow) -> Ordering
    ensures { result ≡ order.entry_cmp rules.now (order.row_in left.now) (order.row_in right.now) }
{
    match rules {
        [] => Ordering::Equal,
        [rule, rules @ ..] => match compare_as(*rule, left, right) {
            Ordering::Equal => compare(rules, left, right),
            decided => decided,
        },
    }
}

/// Puts entries into print order.
fn sort_entries(entries: &mut Vec<HistRow>, rules: &[SortRule]) -> Result<(), AllocError>
    ensures { OnOk result (order.IsPrintOrder rules.now
        (map order.row_in entries.old.items) (map order.row_in entries.new.items)) }
{
    entries.sort_by(|left, right| compare(rules, left, right))
}

/// Copied entries in print order.
pub(crate) fn rows_in_order(
    alloc: Global,
    rules: &[SortRule],
    copy: &EntriesCopy,
) -> Result<Vec<HistRow>, AllocError>
    ensures { IfOk result (λ shown. map order.row_in shown.items ≡ order.printed rules.now copy.now) }
{
    let mut rows = copy.rows(alloc)?;
    sort_entries(&mut rows, rules)?;
    Ok(rows)
}
