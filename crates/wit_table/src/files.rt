//! Source files by name, in order of first appearance.

ghost use Rattle.std.specs.Prelude.{◌≡◌, ◌≤◌, ◌<◌, ◌+◌, ◌++◌, [], ◌∷◌, ℕ, List, true, false};
ghost use Rattle.std.specs.Prelude.{length, is_some, slice_get, IfSome, IfNone, IfOk, IfErr, OnOk};
ghost use Rattle.std.specs.Prelude.{OnErr, Some, Ok};
ghost use Rattle.std.specs.List.{All, IsDistinct};
ghost use Rattle.std.specs.Str.{bytes_eq};
ghost use Rattle.wit_model.specs.Rules.Names.{is_file_name};
ghost use Rattle.wit_model.specs.Rules.Files.{is_known_file, file_number, files_after, file_answer};
ghost use Rattle.wit_model.specs.Rules.Numbers.{with_number, IsGiven};
ghost use Rattle.wit_model.specs.declared.faults.Fault.TheVariants.{OutOfMemory};
ghost use Rattle.wit_model.specs.declared.sizes.TheConstants.Limits.{MOST_FILES};
ghost use Rattle.wit_model.specs.Rules.Refusals.{IsRefusal};
ghost use Rattle.wit_table.specs.Known.{with_file, HasFile};
ghost use Rattle.wit_table.specs.Rows.{texts};

use crate::table::Table;
use indexmap::IndexSet;
use std::alloc::{AllocError, Global};
use wit_model::{Fault, FileName, FileNo};

impl Table {
    /// How many source files there are. No two of them have one name.
    pub fn files(&self) -> usize
        ensures files { result ≡ length self.now.files }
        ensures distinct { IsDistinct bytes_eq self.now.files }
        ensures most { result ≤ self.now.most_files }
        ensures few { self.now.most_files ≤ MOST_FILES }
    {
        self.files.len()
    }

    /// The name of a source file, by its number.
    pub fn file_name(&self, file: FileNo) -> &str
        requires { IsGiven self.now.files file.0 }
        ensures name { with_number self.now.files file.0 ≡ Some result.now }
        ensures number { file_number result.now self.now.files ≡ file.0 }
        ensures good { is_file_name result.now ≡ true }
    {
        // Called for its clause that no name stands twice.
        let _files = self.files();
        file_at(&self.files, file.0 as usize - 1)
    }

    /// The file that was named last, which most sites repeat: its number and its name; `None` before
    /// any was.
    pub fn recent_file(&self) -> Option<(FileNo, &str)>
        ensures { IfSome result (λ f. HasFile self.now f.1.now f.0.0) }
    {
        if self.recent.0 == 0 {
            return None;
        }
        if self.recent.0 as usize > self.files() {
            return None;
        }
        Some((self.recent, self.file_name(self.recent)))
    }

    /// The number of a source file: a known file keeps its number, also where the table is full; a
    /// new one gets the next.
    ///
    /// # Errors
    /// In this order: `BadName` where the text is no file name; `FilesFull` where it is new and no
    /// number is left; `OutOfMemory`, only where it is new.
    pub fn file(&mut self, name: &str) -> Result<FileNo, Fault>
        ensures ok { IfOk result (λ f. file_answer name.now self.old.most_files self.old.files
            ≡ Ok f.0) }
        ensures number { IfOk result (λ f. f.0 ≡ file_number name.now self.old.files) }
        ensures given { IfOk result (λ f. IsGiven self.new.files f.0) }
        ensures entered { OnOk result (self.new ≡ with_file self.old name.now) }
        ensures err { IfErr result (IsRefusal
            (file_answer name.now self.old.most_files self.old.files)) }
        ensures absent { IfErr result (λ e. e ≡ OutOfMemory
            → is_known_file name.now self.old.files ≡ false) }
        ensures unchanged { OnErr result (self.new ≡ self.old) }
    {
        let recent = self.recent;
        if self.has_name(recent, name) {
            return Ok(recent);
        }
        file_in(
            self.alloc,
            &mut self.files,
            &mut self.recent,
            self.most_files,
            name,
        )
    }

    // Whether there is a source file with this number, and it has this name.
    fn has_name(&self, file: FileNo, name: &str) -> bool
        ensures { result ≡ true → HasFile self.now name.now file.0 }
    {
        if file.0 == 0 {
            return false;
        }
        if file.0 as usize > self.files() {
            return false;
        }
        self.file_name(file) == name
    }
}

// Enters a file where it is new, and gives its number, which is the recent one from then on.
fn file_in(
    alloc: Global,
    files: &mut IndexSet<String>,
    recent: &mut FileNo,
    most: u32,
    name: &str,
) -> Result<FileNo, Fault>
    requires few { length (texts files.old.keys) ≤ most }
    requires most { most ≤ MOST_FILES }
    requires names { All (λ (file : List ℕ). is_file_name file ≡ true) (texts files.old.keys) }
    ensures ok { IfOk result (λ f. file_answer name.now most (texts files.old.keys) ≡ Ok f.0) }
    ensures number { IfOk result (λ f. f.0 ≡ file_number name.now (texts files.old.keys)) }
    ensures given { IfOk result (λ f. IsGiven (texts files.new.keys) f.0) }
    ensures err { IfErr result (IsRefusal (file_answer name.now most (texts files.old.keys))) }
    ensures absent { IfErr result (λ e. e ≡ OutOfMemory
        → is_known_file name.now (texts files.old.keys) ≡ false) }
    ensures files { OnOk result (texts files.new.keys
        ≡ files_after name.now (texts files.old.keys)) }
    ensures unchanged { OnErr result (files.new.keys ≡ files.old.keys) }
{
    // A known name is a file name, and isn't tested again.
    if let Some(place) = place_of(files, name) {
        *recent = FileNo((place + 1) as u16);
        return Ok(*recent);
    }
    if !FileName::accepts(name) {
        return Err(Fault::BadName);
    }
    let count = files.len();
    if count >= most as usize {
        return Err(Fault::FilesFull);
    }
    add_file(alloc, files, name)?;
    *recent = FileNo((count + 1) as u16);
    Ok(*recent)
}

// The place of the file with this name.
fn place_of(files: &IndexSet<String>, name: &str) -> Option<usize>
    requires { All (λ (file : List ℕ). is_file_name file ≡ true) (texts files.now.keys) }
    ensures number { IfSome result (λ i. i + 1 ≡ file_number name.now (texts files.now.keys)) }
    ensures found { is_some result ≡ is_known_file name.now (texts files.now.keys) }
    ensures within { IfSome result (λ i. i < length (texts files.now.keys)) }
    ensures good { IfSome result (λ _. is_file_name name.now ≡ true) }
    ensures next { IfNone result (file_number name.now (texts files.now.keys)
        ≡ length (texts files.now.keys) + 1) }
{
    files.get_index_of(name)
}

// Adds a new file behind the others.
fn add_file(alloc: Global, files: &mut IndexSet<String>, name: &str) -> Result<(), AllocError>
    requires { is_known_file name.now (texts files.old.keys) ≡ false }
    ensures ok { OnOk result (texts files.new.keys ≡ texts files.old.keys ++ name.now ∷ []) }
    ensures err { OnErr result (files.new.keys ≡ files.old.keys) }
{
    let text = String::from_str(alloc, name)?;
    files.insert(text)?;
    Ok(())
}

// The name of the file at this place.
fn file_at(files: &IndexSet<String>, place: usize) -> &str
    requires { place < length (texts files.now.keys) }
    ensures { slice_get (texts files.now.keys) place ≡ Some result.now }
{
    files.get_index(place).unwrap().as_str()
}
