// An opened module: a view of the lent file and its counts.
#![tactic(auto)]

ghost use Rattle.std.specs.Prelude.{◌≡◌};
ghost use Rattle.rules.specs.ModuleFile.{read};
ghost use Rattle.format.specs.Layout.{Packed};
ghost use Rattle.reader.specs.Answers.{slot_in, function_found, label_in};

use format::Sections;
use reader::entries::{FunctionRecord, LabelRecord};
use rules::Slot;

// The file's bytes stay the lender's; the counts are those that `reader::open` gives of them.
#[derive(Clone, Copy)]
pub struct Module<'a> {
    pub bytes: &'a [u8],
    pub counts: Sections,
}

// Each accessor takes the view apart for a function of the reader.
impl<'a> Module<'a> {
    // The view of a file that was opened with these counts.
    pub fn of(bytes: &'a [u8], counts: Sections) -> Module<'a>
        ensures { (result.bytes ≡ bytes.entry) × (result.counts ≡ counts) }
    {
        Module { bytes, counts }
    }

    // Constant k.
    pub fn constant(self, k: usize) -> Option<Slot>
        requires { Packed self.bytes.now self.counts }
        ensures { slot_in result ≡ (read self.entry.bytes.now).constant k }
    {
        reader::entries::constant(self.bytes, self.counts, k)
    }

    // Function k.
    pub fn function(self, k: usize) -> Option<FunctionRecord>
        requires { Packed self.bytes.now self.counts }
        ensures { function_found self.entry.bytes.now k result ≡ (read self.entry.bytes.now).function k }
    {
        reader::entries::function(self.bytes, self.counts, k)
    }

    // Label k.
    pub fn label(self, k: usize) -> Option<LabelRecord>
        requires { Packed self.bytes.now self.counts }
        ensures { label_in result ≡ (read self.entry.bytes.now).label k }
    {
        reader::entries::label(self.bytes, self.counts, k)
    }
}

// The same on a lent file and its counts, for callers that hold no view.
pub fn constant(file: &[u8], c: Sections, k: usize) -> Option<Slot>
    requires { Packed file.now c }
    ensures { slot_in result ≡ (read file.now).constant k }
{
    Module::constant(Module::of(file, c), k)
}

pub fn function(file: &[u8], c: Sections, k: usize) -> Option<FunctionRecord>
    requires { Packed file.now c }
    ensures { function_found file.now k result ≡ (read file.now).function k }
{
    Module::function(Module::of(file, c), k)
}

pub fn label(file: &[u8], c: Sections, k: usize) -> Option<LabelRecord>
    requires { Packed file.now c }
    ensures { label_in result ≡ (read file.now).label k }
{
    Module::label(Module::of(file, c), k)
}
