//! What the definitions of a service mean. Each function does nothing: its contract is a theorem.

ghost use Rattle.fuse_serve.specs.FramingExamples as framing;
ghost use Rattle.fuse_serve.specs.ServiceExamples as services;
ghost use Rattle.fuse_serve.specs.ServiceLaws.{CutOneWay, AllAreServed, AllAreWritten, OneWriteEach, WholeWritesEndReplies};

/// Bytes are whole requests, one after another, and a rest that begins with none, in one way at most.
pub fn bytes_are_cut_one_way()
    ensures { CutOneWay }
{}

/// If a reader has whole requests to give, a service that found its end served exactly these.
pub fn whole_requests_are_served()
    ensures { AllAreServed }
{}

/// If no reply was dropped or cut, what was written are the replies, one after another.
pub fn uninterrupted_replies_are_written()
    ensures { AllAreWritten }
{}

/// To a device whose every write takes all that it is offered, each reply with bytes is one write, and there is no other; a write that takes all is
/// always its reply's last.
pub fn replies_are_single_writes()
    ensures single { OneWriteEach }
    ensures last { WholeWritesEndReplies }
{}

/// The examples are what they are said to be.
pub fn examples_are_framed()
    ensures { framing.Examples }
{}

/// Some calls of a device are a service's, and those of a server that reads ahead, writes a reply in two, or tells late are none.
pub fn examples_are_served()
    ensures { services.Examples }
{}
