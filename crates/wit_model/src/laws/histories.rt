//! Laws of histories that go on: what stays in every longer one. Each function is a theorem, and
//! does nothing.

ghost use Rattle.wit_model.specs.HistoryLaws.{
  OwnEntriesJoin,
  BeginningsAreLegal,
  LegalTellsOfFiles,
  ToldFilesSuffice,
  FilesAreAdded,
  NamedFilesAreThere,
  FilesKeepNumbers,
  NamesKeepNumbers,
  ChecksKnowFiles,
  TriesKnowFiles,
  OrdersAreAdded,
  OrdersKeepNumbers,
  AdoptedAreNumbered,
};

/// A seat's entries in a history are those in its beginning and those in what came later.
pub fn law_own_entries_join()
    ensures { OwnEntriesJoin }
{}

/// How a legal history began is legal.
pub fn law_beginnings_legal()
    ensures { BeginningsAreLegal }
{}

/// A legal history tells of named files alone, and is legal over any files that has those: so its
/// beginning is legal over the files that were named by then.
pub fn law_told_files_suffice()
    ensures told { LegalTellsOfFiles }
    ensures suffice { ToldFilesSuffice }
{}

/// A file that was named stands in the list of files under its number, and keeps number and name in
/// every longer one.
pub fn law_files_keep_numbers()
    ensures added { FilesAreAdded }
    ensures there { NamedFilesAreThere }
    ensures number { FilesKeepNumbers }
    ensures name { NamesKeepNumbers }
{}

/// A check or a try that tells a named file isn't refused for its file.
pub fn law_named_files_known()
    ensures checks { ChecksKnowFiles }
    ensures tries { TriesKnowFiles }
{}

/// Orders are numbered as they were adopted, and each keeps its number in every longer history; a
/// reply that adopts an order gives it the next number.
pub fn law_orders_keep_numbers()
    ensures added { OrdersAreAdded }
    ensures number { OrdersKeepNumbers }
    ensures adopted { AdoptedAreNumbered }
{}
