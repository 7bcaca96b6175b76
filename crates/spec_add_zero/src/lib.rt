// Sequential consistency by values alone: that adding zero, which only reads, leaves every outcome as it was. There is no code here.
#![tactic(auto)]
