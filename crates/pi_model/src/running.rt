//! A run as far as it has come.

ghost use Rattle.std.specs.Prelude.{◌^◌, ◌<◌, length};
ghost use Rattle.spec_calculus.specs.Points.{nodes};
ghost use Rattle.pi_tree.specs.Processes.{process_of};
ghost use Rattle.pi_tree.specs.Protocols.{protocol_of};
ghost use Rattle.pi_configurations.specs.Configurations.{IsConfigurationOf};
ghost use Rattle.pi_model.specs.PointProps.{point_props};

use pi_configurations::configurations::Conf;
use pi_tree::Protocol;
use std::alloc::Global;

/// A run as far as it has come: a configuration of a protocol, whose points have numbers of 32 bits.
#[derive(Clone, Copy)]
pub struct Run<'a> {
    pub alloc: Global,
    pub protocol: &'a Protocol,
    pub conf: &'a Conf,
    ghost of_protocol: { IsConfigurationOf (protocol_of protocol.now) conf.now } by { Prim.hlevel point_props },
    ghost points: { length (nodes (process_of protocol.now.main)) < 2 ^ 32 },
}
