// Finds a record of a trace by its number, with an index: the command `find` of a program.
#![tactic(auto)]

fn main(rt: HostRuntime) {
    cmd_find::run(&rt, 1);
}
