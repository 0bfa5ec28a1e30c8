//! What the layouts of requests and replies say together, and bytes that were met. Each function does nothing: its contract is a theorem.

ghost use Rattle.fuse_wire.specs.Laws.{RequestsHaveBytes, RequestsDiffer, RepliesTellTheirLength, RepliesDiffer, RepliesOfAKindDiffer};
ghost use Rattle.fuse_wire.specs.ReplyExamples.{AreReplies};
ghost use Rattle.fuse_wire.specs.RequestExamples.{AreRequests};

/// Each request whose numbers have room has bytes. No bytes are two requests.
pub fn requests_are_told_apart()
    ensures have { RequestsHaveBytes }
    ensures differ { RequestsDiffer }
{}

/// A reply begins with the number of its bytes. Replies with the same bytes are to the same request, and have the same error and the same body.
/// If they are of one kind, and their bytes tell all of them, they are the same reply.
pub fn replies_are_told_apart()
    ensures length { RepliesTellTheirLength }
    ensures differ { RepliesDiffer }
    ensures of_a_kind { RepliesOfAKindDiffer }
{}

/// Bytes that a kernel sent are the requests that were made, one of each operation, and bytes that it took are the replies and the wakeup.
pub fn messages_are_as_met()
    ensures requests { AreRequests }
    ensures replies { AreReplies }
{}
