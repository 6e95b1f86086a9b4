// How far the edges of a Baudot burst may be displaced: theorems on readers, stations and lists of calls. No function.
#![tactic(auto)]
