//! What a tracer is made with, as C gives it.

ghost use Rattle.std.specs.Prelude.{◌≡◌};
ghost use Rattle.tracectl_c.specs.Calls.{config_of, limit_of, owners_of};

use library_tracer::Owners;
use trace_command::Config;
use tracer::MOST_DONE;

/// What a tracer is made with. The limit is one of calls: once as many commands were done, a call does no more. 0 is no limit.
#[repr(C)]
pub struct Settings {
    pub cpus: u32,
    pub pages: u32,
    pub page_bytes: u32,
    pub history_limit: u64,
    /// Who owns the files of its mount, and the permissions of its folders, such as 0o750.
    pub uid: u32,
    pub gid: u32,
    pub mode: u16,
}

/// The configuration. Its own limit is one of histories, which this tracer does not heed, but it has to be at least 1.
pub(crate) fn config_of(settings: &Settings) -> Config
    ensures { result ≡ config_of settings.now }
{
    Config {
        cpus: settings.cpus,
        pages: settings.pages,
        page_bytes: settings.page_bytes,
        history_limit: settings.history_limit.max(1),
    }
}

/// Who owns the files of its mount, and what the permissions are.
pub(crate) fn owners_of(settings: &Settings) -> Owners
    ensures { result ≡ owners_of settings.now }
{
    Owners {
        uid: settings.uid,
        gid: settings.gid,
        mode: settings.mode,
    }
}

/// How many commands were done when calls do no more.
pub(crate) fn limit_of(settings: &Settings) -> u64
    ensures { result ≡ limit_of settings.now }
{
    if settings.history_limit == 0 {
        MOST_DONE
    } else {
        settings.history_limit
    }
}
