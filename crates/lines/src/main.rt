// Replays a trace with polling put in, and writes the lines that come of it: the command `lines` of a program.
#![tactic(auto)]

fn main(rt: HostRuntime) {
    cmd_lines::run(&rt, 1);
}
