//! What the definitions of a service mean. Each function does nothing: its contract is a theorem.

ghost use Rattle.mount_service.specs.ReaderLaws.{ExchangesTakeForOne, NoRecordIsTakenTwice, TakenIsOfOneRead};
ghost use Rattle.mount_service.specs.RecordLaws.{ServicesAreAccountedFor, StatsTellAllRecords};
ghost use Rattle.mount_service.specs.RecordRows.{ServedRecordsShowEmissions, ServedRecordsShowTheirRows};
ghost use Rattle.mount_service.specs.SameReplies.{RecordingsReplay, ServicesAreOneUntilTheyPart, ServicesAskedTheSame};
ghost use Rattle.mount_service.specs.TracerLaws.{CallsAreServed, KnownBytesAreServed};

/// If what the reads of a device gave are whole requests, a service that found the end, or that the device is gone, served exactly these, and its writes
/// took exactly the replies and what was owed unless one failed by ENOENT. So it is of a device whose bytes are known, at its end.
pub fn known_bytes_are_served()
    ensures calls { CallsAreServed }
    ensures bytes { KnownBytesAreServed }
{}

/// Whatever was served, the tracer's commands were done, one after another; and of each ring, a CPU's of one side, the records that pipes handed out,
/// that are kept, and that were overwritten or refused are together all that were recorded in it since it was new or emptied. As long as nothing
/// empties a ring of a CPU, so it is of both sides together, from the making of the instance on. The counts that a `stats` file shows, when a program
/// reads it from its beginning, and not the page cache for it, are together all that were recorded by then in the ring that is live.
pub fn records_are_accounted_for()
    ensures services { ServicesAreAccountedFor }
    ensures stats { StatsTellAllRecords }
{
    history_laws::laws::rings_count_what_was_done();
    history_laws::laws::emissions_are_accounted_for();
    mount_replies::laws::pasts_are_done();
    mount_replies::laws::reads_show_the_past();
}

/// With a configuration in range, whatever was served: the line of each emission's record shows the row that was emitted, whatever was done after it
/// (`rows`), and each record that a CPU's ring of an instance keeps, of either side, has such a line: of an emission on that CPU, since the instance was
/// made, which the instance recorded (`kept`).
pub fn records_show_what_was_emitted()
    ensures rows { ServedRecordsShowTheirRows }
    ensures kept { ServedRecordsShowEmissions }
{
    tracer_specification::laws::records_show_their_rows();
    tracer_specification::laws::kept_records_show_emissions();
    mount_replies::laws::pasts_are_done();
    mount_replies::laws::pasts_fit_their_types();
}

/// No record goes to two readers, whatever was served: of all records that reads of an instance's pipes took no two are one (`once`); what an
/// exchange took for an open pipe, or for a file of binary pages, is what one such read answered, the exchange's only command (`taken`); and it took it for
/// one handle (`one`), whose reads give it in order, as `waiting_loses_nothing` and `pages_go_to_one_reader` of mount_replies say.
///
/// A record may yet be lost after it was taken: what is kept for an open file's reads when it is closed, what stood in a reply that the device
/// dropped or cut, and what a reader was given that ended before it used it. Of what was overwritten or refused before, `stats` tells.
pub fn no_record_goes_to_two_readers()
    ensures once { NoRecordIsTakenTwice }
    ensures taken { TakenIsOfOneRead }
    ensures one { ExchangesTakeForOne }
{
    history_laws::laws::nothing_is_read_twice();
    mount_replies::laws::pasts_are_done();
}

/// Two services under the same terms are one for as long as they are asked the same and neither tells of refused memory, by ENOMEM or by a write that is
/// told as done in part: they give the same replies and tell what they owe at the same places (`until`). If they were asked the same requests, told all
/// that they owed, and told of no refused memory, all was the same, and they are one service still (`same`). So the requests that a device's reads gave
/// can be recorded and asked again: on whatever device, the writes take the same bytes (`replays`).
pub fn services_asked_the_same_are_one()
    ensures until { ServicesAreOneUntilTheyPart }
    ensures same { ServicesAskedTheSame }
    ensures replays { RecordingsReplay }
{}
