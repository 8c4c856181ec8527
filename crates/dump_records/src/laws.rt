//! Laws of records and of their lists. Each law is the contract of a function that does nothing.
ghost use Rattle.dump_records.specs.RecordLaws.{NoRecordBeginsAnother, EachDumpHasOneList};

/// No record's bytes are a proper prefix of another record's.
pub fn no_record_begins_another()
    ensures { NoRecordBeginsAnother }
{}

/// Each dump has exactly one list of records, which ends in exactly one way.
pub fn each_dump_has_one_list()
    ensures { EachDumpHasOneList }
{}
