// Draws a trace as a VCD file: the command `wave` of a program.
#![tactic(auto)]

fn main(rt: HostRuntime) {
    cmd_wave::run(&rt, 1);
}
