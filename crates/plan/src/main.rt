// Plans the queue: the command `plan` of a program.
#![tactic(auto)]

fn main(rt: HostRuntime) {
    cmd_plan::run(&rt, 1);
}
