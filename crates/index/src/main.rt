// Makes an index of a trace, or extends one: the command `index` of a program.
#![tactic(auto)]

fn main(rt: HostRuntime) {
    cmd_index::run(&rt, 1);
}
