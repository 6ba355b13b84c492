//! Where threads of a run stand.

ghost use Rattle.std.specs.Prelude.{◌≡◌, option_map};
ghost use Rattle.pi_tree.specs.Protocols.{protocol_of};
ghost use Rattle.pi_configurations.specs.Configurations.{configuration_of, IsConfigurationOf};
ghost use Rattle.attack_compiling.specs.Standing.{stand_of, stand_at};

use pi_model::{Conf, Environment, Thread};
use pi_tree::{Process, Protocol};

/// Where a thread stands: the point, what the thread has bound, and the process that is there.
#[derive(Clone, Copy)]
pub(crate) struct Stand<'a> {
    pub point: u32,
    pub environment: &'a Environment,
    pub process: &'a Process,
}

/// Where the thread of that number stands, if there is one that has not ended.
pub(crate) fn standing<'a>(conf: &'a Conf, protocol: &'a Protocol, number: u32) -> Option<Stand<'a>>
    requires { IsConfigurationOf (protocol_of protocol.now) conf.now }
    ensures { option_map stand_of result ≡
        stand_at (protocol_of protocol.now) (configuration_of conf.now) number }
{
    match conf.threads.get(number) {
        None => None,
        Some(thread) => match thread {
            Thread::Ended => None,
            Thread::At(point, environment) => Some(Stand {
                point: *point,
                environment,
                process: protocol.node(*point),
            }),
        },
    }
}
