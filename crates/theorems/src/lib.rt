// Theorems over the definitions of the model. The statements are in specs/, their proofs in proofs/.
#![tactic(auto)]

ghost use Rattle.theorems.specs.Ledger.{LedgerAgreesFrom, LedgerAgrees};
ghost use Rattle.theorems.specs.NextGrower.{NextGrowerAgrees, NextGrowerAfterCalls};
ghost use Rattle.theorems.specs.Sheet.{SheetAgrees, SheetAfterCalls, TermSheetAgrees, TermSheetAfterCalls};
ghost use Rattle.theorems.specs.Plan.{Demand3, NoneEmptyWhenLaid};
ghost use Rattle.theorems.specs.Limits.{LimitsKept, OwnLimitsKept};
ghost use Rattle.theorems.specs.MoreCalls.{EachCostBounded, LeastCostPlanned, LeastCostBounded, OldPlanBounded};
ghost use Rattle.theorems.specs.Listing.{EveryPermittedListed};
ghost use Rattle.theorems.specs.Snapshot.{WrittenIsRead, ReadIsWritten};
ghost use Rattle.theorems.specs.Weighbridge.{ImportRestores};

// Does nothing: its contract is that the theorems hold, so that they stand in the list of what is proved.
pub fn theorems()
    ensures { LedgerAgreesFrom × LedgerAgrees × Demand3 × WrittenIsRead × ReadIsWritten }
{}

// Does nothing: that a freshly laid column has no empty partition, likewise.
pub fn none_empty_when_laid()
    ensures { NoneEmptyWhenLaid }
{}

// Does nothing: that importing an export restores its deliveries, likewise.
pub fn import_restores()
    ensures { ImportRestores }
{}

// Does nothing: that the limits permit the layouts on which no find and no insert costs more, likewise.
pub fn limits_kept()
    ensures { LimitsKept × OwnLimitsKept }
{}

// Does nothing: what more calls can add to each permitted layout's bill and to the least bill, likewise.
pub fn more_calls_bounded()
    ensures { EachCostBounded × LeastCostPlanned × LeastCostBounded × OldPlanBounded }
{}

// Does nothing: that every permitted layout is listed and the planner's answer is the cheapest of the list, likewise.
pub fn every_permitted_listed()
    ensures { EveryPermittedListed }
{}

// Does nothing: that the next and the previous grower are the ledger's, likewise.
pub fn growers_agree()
    ensures { NextGrowerAgrees × NextGrowerAfterCalls }
{}

// Does nothing: that the settlement sheet and that of a term are the ledger's, likewise.
pub fn sheets_agree()
    ensures { SheetAgrees × SheetAfterCalls × TermSheetAgrees × TermSheetAfterCalls }
{}
