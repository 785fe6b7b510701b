// The records for C: a machine as 20 words, a guarded run's extras as 1, an answer as 8. specs/Records.antt has what each word is,
// and that nothing is lost in a record (`RecordsRead`).
//
// Internal, for crate `ola`, and for any arguments. They are functions and no impls of From: Machine and Marks are types of crate
// `rules`, and an impl of std's trait has to stand with its type.
#![tactic(auto)]

ghost use Rattle.std.specs.Prelude.{◌≡◌};
ghost use Rattle.rules.specs.Answers.{meaning};
ghost use Rattle.records.specs.Records.{machine_of, machine_record, marks_of, marks_record, callee_of, answer_record};

use report::label::Label;
use rules::{Answer, Machine, Marks};

#[tactic(auto, unfolding(crate::specs::Records::machine_of))]
pub fn machine_of(words: [u64; 20]) -> Machine
    ensures { result ≡ machine_of words }
{
    Machine {
        registers: *words.first_chunk().unwrap(),
        pc: words[10],
        clk: words[11],
        psp: words[12],
        storage_addr: [words[13], words[14], words[15], words[16]],
        cell_count: words[17] as usize,
        tape_count: words[18] as usize,
        output_count: words[19] as usize,
    }
}

pub fn machine_record(machine: Machine) -> [u64; 20]
    ensures { result ≡ machine_record machine }
{
    let registers = machine.registers;
    let storage_addr = machine.storage_addr;
    [
        registers[0],
        registers[1],
        registers[2],
        registers[3],
        registers[4],
        registers[5],
        registers[6],
        registers[7],
        registers[8],
        registers[9],
        machine.pc,
        machine.clk,
        machine.psp,
        storage_addr[0],
        storage_addr[1],
        storage_addr[2],
        storage_addr[3],
        machine.cell_count as u64,
        machine.tape_count as u64,
        machine.output_count as u64,
    ]
}

#[tactic(auto, unfolding(crate::specs::Records::marks_of))]
pub fn marks_of(words: [u64; 1]) -> Marks
    ensures { result ≡ marks_of words }
{
    Marks {
        registers: words[0],
    }
}

#[tactic(auto, unfolding(crate::specs::Records::marks_record))]
pub fn marks_record(marks: Marks) -> [u64; 1]
    ensures { result ≡ marks_record marks }
{
    [marks.registers]
}

// The callee of e1 and e2; else zeros.
#[tactic(auto, using(crate::proofs::RecordLaws::no_callee), unfolding(crate::specs::Records::callee_of, rules::specs::Answers::meaning))]
fn callee_of(answer: Answer) -> [u64; 4]
    ensures { result ≡ callee_of (meaning answer) }
{
    match answer {
        Answer::Calling(a, b, c, d) | Answer::DelegateCalling(a, b, c, d) => [a, b, c, d],
        Answer::Ended
        | Answer::Paused
        | Answer::Refused(_)
        | Answer::MarkedSink
        | Answer::ShortBuffer => [0; 4],
    }
}

pub fn answer_record(answer: Answer, steps: u64) -> [u64; 8]
    ensures { result ≡ answer_record (meaning answer) steps }
{
    let [a, b, c, d] = callee_of(answer);
    match Label::from(answer) {
        Label::Outcome(number) => [0, number as u64, steps, 0, a, b, c, d],
        Label::Refusal(number) => [1, number as u64, steps, 0, 0, 0, 0, 0],
        Label::Malformed(frame) => [1, 2, steps, frame, 0, 0, 0, 0],
    }
}
