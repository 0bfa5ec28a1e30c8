//! What the definitions say, as theorems that speak of no program.

ghost use Rattle.kernel_pages.specs.Laws as laws;
ghost use Rattle.kernel_pages.specs.FormatLaws as formats;

/// Whoever reads a page by the rules of Linux gets the rows that it was made of, their times, and how many records were lost before them.
pub fn page_is_read()
    ensures { laws.PageIsRead }
{}

/// A page has 4,096 bytes.
pub fn page_has_its_size()
    ensures { laws.PageHasItsSize }
{}

/// No page tells more than 340 records of a ring, so whoever gives it so many has left out none that fits.
pub fn page_has_few_records()
    ensures { formats.PageHasFewRecords }
{}

/// Each row of at most 4,056 bytes of data fits a page, so a page takes one row at least.
pub fn row_fits()
    ensures { laws.RowFits }
{}

/// A record that a ring keeps of a row is told by the row's values, and the time and process of its head.
pub fn record_is_told()
    ensures { formats.RecordIsTold }
{}

/// The data of a record lie where the event's `format` says: each value at the offset of its field's line, which is the first that its type may
/// have behind the field before it.
pub fn fields_lie_where_format_says()
    ensures line { formats.LineHasOffset }
    ensures bytes { formats.ValueLiesAtOffset }
    ensures aligned { formats.FieldIsAligned }
{}

/// An event has one number: that of `id` is the one in `format`, and whoever reads `common_type` where `format` says gets it, too; and of
/// `common_pid` the process.
pub fn event_has_one_number()
    ensures format { formats.IdIsInFormat }
    ensures common { formats.CommonFieldsAreRead }
{}

/// A record of any event that can be declared fits a page.
pub fn event_fits_page()
    ensures { formats.EventFitsPage }
{}
