// Programs in each of the forms in which they are handed in: bare words, text, text after a budget line.
ghost use Rattle.std.specs.Prelude.{◌≡◌, ℕ, List, IfOk, IfErr};
ghost use Rattle.rules.specs.declared.Instruction.{Instruction};
ghost use Rattle.rules.specs.Results.{Result, refuse};
ghost use Rattle.rules.specs.Frames.{load_words};
ghost use Rattle.rules.specs.Text.{load_text, load_budget_text};
ghost use Rattle.rules.specs.Calls.{job_budget, job_program};
ghost use Rattle.program.specs.WordLoads.{checked_of, check_meaning};

use program::binary_program::WORD_LIMIT;
use program::table;
use rules::Refusal;

// The words of a program, and the budget of its run.
#[derive(Clone, Copy)]
pub struct Job<'a> {
    pub words: &'a [u64],
    pub budget: u64,
}

// A program as it is handed in, with the budget of its run.
pub trait Program: Copy {
    // What the rules load it as.
    ghost loaded: { Self → Result (List Instruction) };

    ghost budget: { Self → ℕ };

    fn check(&self) -> Result<usize, Refusal>
        ensures { check_meaning result ≡ check_meaning (checked_of (loaded self.now)) };

    // Its words, where they stand or written into the buffer, and its budget; or its refusal.
    fn load<'a>(&'a self, buffer: &'a mut [u64; WORD_LIMIT]) -> Result<Job<'a>, Refusal>
        ensures words { IfOk result (λ job. load_words job.words.now ≡ loaded self.now) }
        ensures given { IfOk result (λ job. job.budget ≡ budget self.now) }
        ensures refused { IfErr result (λ refusal. loaded self.now ≡ refuse refusal) };
}

// Bare words: they are run where they stand.
#[derive(Clone, Copy)]
pub struct Words<'a> {
    pub words: &'a [u64],
    pub budget: u64,
}

impl Program for Words<'_> {
    ghost loaded = { λ program. load_words program.words.now };

    ghost budget = { λ program. program.budget };

    fn check(&self) -> Result<usize, Refusal> {
        table::check_words(self.words)
    }

    fn load<'a>(&'a self, _buffer: &'a mut [u64; WORD_LIMIT]) -> Result<Job<'a>, Refusal> {
        Ok(Job {
            words: self.words,
            budget: self.budget,
        })
    }
}

// Text.
#[derive(Clone, Copy)]
pub struct Text<'a> {
    pub text: &'a [u8],
    pub budget: u64,
}

impl Program for Text<'_> {
    ghost loaded = { λ program. load_text program.text.now };

    ghost budget = { λ program. program.budget };

    fn check(&self) -> Result<usize, Refusal> {
        program_text::check_text(self.text)
    }

    fn load<'a>(&'a self, buffer: &'a mut [u64; WORD_LIMIT]) -> Result<Job<'a>, Refusal> {
        let loaded = program_text::load_text(self.text, buffer)?;
        Ok(Job {
            words: &buffer[..loaded.words],
            budget: self.budget,
        })
    }
}

// Text after a budget line, which has the budget.
#[derive(Clone, Copy)]
pub struct BudgetText<'a> {
    pub text: &'a [u8],
}

impl Program for BudgetText<'_> {
    ghost loaded = { λ program. job_program (load_budget_text program.text.now) };

    ghost budget = { λ program. job_budget (load_budget_text program.text.now) };

    fn check(&self) -> Result<usize, Refusal> {
        program_text::check_budget_text(self.text)
    }

    fn load<'a>(&'a self, buffer: &'a mut [u64; WORD_LIMIT]) -> Result<Job<'a>, Refusal> {
        let loaded = program_text::load_budget_text(self.text, buffer)?;
        Ok(Job {
            words: &buffer[..loaded.text.words],
            budget: loaded.budget,
        })
    }
}
