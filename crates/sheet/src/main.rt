// The sheet program. It reads policy.txt, question.bin and request.txt in the folder where it is started, and prints the rows that are answered with yes, under version 1.
#![tactic(auto)]

use printing::print_folder;

fn main(rt: HostRuntime) {
    print_folder(&rt, 1);
}
