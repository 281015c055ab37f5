use macro_record::TapeSource;
use outside::FileShelf;
use plain_text::Text;
use run_folder::{Saved, save_run};
use xi_forms::Entry;

/// Saves the tape and the journal of a run in a folder, and tells on standard error what was not saved.
pub fn keep<S: Drop>(rt: &HostRuntime, folder: &Text, source: &TapeSource<S>, journal: &[Entry]) {
    if !source.whole() {
        let _told = eprintln!(rt; "xi_core: memory ran out for the tape, which ends early");
    }
    let mut shelf = FileShelf::new(rt);
    let saved = save_run(rt.alloc(), &mut shelf, folder, source.tape(), journal);
    let folder = folder.as_str();
    let _told = match saved {
        Saved::Whole => Ok(()),
        Saved::Failed(part) => eprintln!(rt; "xi_core: {folder}/{} can't be saved", part.name()),
        Saved::Unwritten(at) => eprintln!(rt;
            "xi_core: entry {at} of the journal has no line, so {folder}/journal is not saved"
        ),
        Saved::NoMemory => eprintln!(rt;
            "xi_core: memory ran out, so the run is not saved in {folder}"
        ),
    };
}
