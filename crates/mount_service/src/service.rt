//! The service: a tracer is mounted, and its requests are served until they end.

ghost use Rattle.std.specs.Prelude.{◌≡◌, Err};
ghost use Rattle.fuse_serve.specs.Exchanges.{device_seen};
ghost use Rattle.mount_service.specs.TracerServices.{HasBeenServed};
ghost use Rattle.trace_command.specs.Configs.{IsInRange};

use crate::failure::{Failure, failure_of};
use crate::mount_server::MountServer;
use fuse_serve::{Device, Ended, Fault, serve};
use mount_replies::{Mount, Owners};
use std::alloc::Global;
use trace_command::Config;

/// Mounts a tracer and serves it: reads requests, does each and writes its reply, until the input ends, the device is gone, a DESTROY was answered,
/// or a fault stops it. What is owed, as the reply of a read that waited, is written before the next read. The files are these people's.
pub fn serve_tracer<D: Device>(
    alloc: Global,
    config: Config,
    owners: Owners,
    device: &mut D,
) -> Result<Ended, Failure>
    ensures service { HasBeenServed (record { config = config; uid = owners.uid; gid = owners.gid; mode = owners.mode }) result
        (device_seen (D.calls device.old) (D.remaining device.old) (D.contents device.old))
        (device_seen (D.calls device.new) (D.remaining device.new) (D.contents device.new)) }
    ensures out_of_range { ¬ IsInRange config → result ≡ Err Failure.BadValue }
    ensures bad_value { result ≡ Err Failure.BadValue → ¬ IsInRange config × (device.new ≡ device.old) }
    ensures memory { result ≡ Err (Failure.Stopped Fault.Memory) → device.new ≡ device.old }
{
    let mount = match Mount::new(alloc, config, owners) {
        Ok(mount) => mount,
        Err(refusal) => return Err(failure_of(&refusal)),
    };
    let mut server = MountServer::new(mount);
    match serve(alloc, &mut server, device) {
        Ok(ended) => Ok(ended),
        Err(fault) => Err(Failure::Stopped(fault)),
    }
}
