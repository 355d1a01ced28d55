// Plays a trace on a module fresh from reset, to a log: the command `replay` of a program.
#![tactic(auto)]

fn main(rt: HostRuntime) {
    cmd_replay::run(&rt, 1);
}
