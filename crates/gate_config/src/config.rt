// The configuration.
ghost use Rattle.std.specs.Prelude.{◌≡◌, ◌<◌, length, IfSome};
ghost use Rattle.std.specs.Str.{IsAscii};
ghost use Rattle.gate_config.specs.Kept.{IsKept};
ghost use Rattle.gate_config.specs.Routes.{route_of, table_of};

use crate::{PluginList, PluginNos, RouteList, VmList};
use gate_base::{Level, Text};
use matchit::Router;
use std::str;

/// What the gateway is told to do.
#[derive(Drop)]
pub struct Config {
    /// How many workers there are, 1 to 8.
    pub workers: u8,
    /// The address that clients reach, as `127.0.0.1:8080`.
    pub listen: Text,
    /// The address of the upstream server.
    pub upstream: Text,
    /// How long a response head may take after the request's, in milliseconds; 0 is for ever.
    pub deadline_ms: u32,
    /// The least level of log lines that are written.
    pub log_level: Level,
    /// The VMs, at most 16.
    pub vms: VmList,
    /// The plug-ins, at most 64.
    pub plugins: PluginList,
    /// The routes, at most 256.
    pub routes: RouteList,
    /// The plug-ins of streams of bytes; none where the lines are HTTP.
    pub tcp: PluginNos,
    pub(crate) router: Router<u16>,
    pub ghost kept: { IsKept workers vms plugins routes },
    ghost routed: { router ≡ table_of routes },
}

impl Config {
    /// The place in `routes` of the route that a path matches by `matchit`, and None where it matches none.
    pub fn route(&self, path: &[u8]) -> Option<u16>
        requires { IsAscii path.now }
        ensures found { result ≡ route_of self.now.routes path.now }
        ensures within { IfSome result (λ place. place < length self.now.routes) }
    {
        self.look_up(path)
    }

    /// What the router finds.
    fn look_up(&self, path: &[u8]) -> Option<u16>
        requires { IsAscii path.now }
        ensures { result ≡ route_of self.now.routes path.now }
    {
        let Ok(text) = str::from_utf8(path) else {
            unreachable!()
        };
        match self.router.at(text) {
            Ok(found) => Some(*found.value),
            Err(_) => None,
        }
    }
}
