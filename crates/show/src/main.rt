// Shows a log, or with --trace a trace, as text: the command `show` of a program.
#![tactic(auto)]

fn main(rt: HostRuntime) {
    cmd_show::run(&rt, 1);
}
