// Compares two logs: the command `compare` of a program.
#![tactic(auto)]

fn main(rt: HostRuntime) {
    cmd_compare::run(&rt, 1);
}
