// Keeps register settings by edition in a file: the command `editions` of a program.
#![tactic(auto)]

fn main(rt: HostRuntime) {
    cmd_editions::run(&rt, 1);
}
