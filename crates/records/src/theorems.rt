// What the grammar itself promises.
ghost use Rattle.records.specs.Readings.{EveryTextHasOneReading};
ghost use Rattle.records.specs.Writing.{EveryWrittenTextReadsBack};

// Every text has a reading, and no other.
pub fn every_text_has_one_reading()
    ensures { EveryTextHasOneReading }
{}

// A text that is written from fields reads back to those fields, record by record and without a fault.
pub fn every_written_text_reads_back()
    ensures { EveryWrittenTextReadsBack }
{}
