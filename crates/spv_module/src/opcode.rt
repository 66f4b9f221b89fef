//! The opcodes of the profile and those that OpenCL has besides (SPIR-V Specification 1.6, section 3.49), each under
//! its name without `Op`.

/// OpNop.
pub const NOP: u16 = 0;

/// OpUndef.
pub const UNDEF: u16 = 1;

/// OpSourceContinued.
pub const SOURCE_CONTINUED: u16 = 2;

/// OpSource.
pub const SOURCE: u16 = 3;

/// OpSourceExtension.
pub const SOURCE_EXTENSION: u16 = 4;

/// OpName.
pub const NAME: u16 = 5;

/// OpMemberName.
pub const MEMBER_NAME: u16 = 6;

/// OpString.
pub const STRING: u16 = 7;

/// OpLine.
pub const LINE: u16 = 8;

/// OpExtension.
pub const EXTENSION: u16 = 10;

/// OpExtInstImport.
pub const EXT_INST_IMPORT: u16 = 11;

/// OpExtInst.
pub const EXT_INST: u16 = 12;

/// OpMemoryModel.
pub const MEMORY_MODEL: u16 = 14;

/// OpEntryPoint.
pub const ENTRY_POINT: u16 = 15;

/// OpExecutionMode.
pub const EXECUTION_MODE: u16 = 16;

/// OpCapability.
pub const CAPABILITY: u16 = 17;

/// OpTypeVoid.
pub const TYPE_VOID: u16 = 19;

/// OpTypeBool.
pub const TYPE_BOOL: u16 = 20;

/// OpTypeInt.
pub const TYPE_INT: u16 = 21;

/// OpTypeFloat.
pub const TYPE_FLOAT: u16 = 22;

/// OpTypeVector.
pub const TYPE_VECTOR: u16 = 23;

/// OpTypeImage.
pub const TYPE_IMAGE: u16 = 25;

/// OpTypeSampler.
pub const TYPE_SAMPLER: u16 = 26;

/// OpTypeSampledImage.
pub const TYPE_SAMPLED_IMAGE: u16 = 27;

/// OpTypeArray.
pub const TYPE_ARRAY: u16 = 28;

/// OpTypeStruct.
pub const TYPE_STRUCT: u16 = 30;

/// OpTypeOpaque.
pub const TYPE_OPAQUE: u16 = 31;

/// OpTypePointer.
pub const TYPE_POINTER: u16 = 32;

/// OpTypeFunction.
pub const TYPE_FUNCTION: u16 = 33;

/// OpTypeEvent.
pub const TYPE_EVENT: u16 = 34;

/// OpTypeDeviceEvent.
pub const TYPE_DEVICE_EVENT: u16 = 35;

/// OpTypeReserveId.
pub const TYPE_RESERVE_ID: u16 = 36;

/// OpTypeQueue.
pub const TYPE_QUEUE: u16 = 37;

/// OpTypePipe.
pub const TYPE_PIPE: u16 = 38;

/// OpTypeForwardPointer.
pub const TYPE_FORWARD_POINTER: u16 = 39;

/// OpConstantTrue.
pub const CONSTANT_TRUE: u16 = 41;

/// OpConstantFalse.
pub const CONSTANT_FALSE: u16 = 42;

/// OpConstant.
pub const CONSTANT: u16 = 43;

/// OpConstantComposite.
pub const CONSTANT_COMPOSITE: u16 = 44;

/// OpConstantSampler.
pub const CONSTANT_SAMPLER: u16 = 45;

/// OpConstantNull.
pub const CONSTANT_NULL: u16 = 46;

/// OpSpecConstantTrue.
pub const SPEC_CONSTANT_TRUE: u16 = 48;

/// OpSpecConstantFalse.
pub const SPEC_CONSTANT_FALSE: u16 = 49;

/// OpSpecConstant.
pub const SPEC_CONSTANT: u16 = 50;

/// OpSpecConstantComposite.
pub const SPEC_CONSTANT_COMPOSITE: u16 = 51;

/// OpFunction.
pub const FUNCTION: u16 = 54;

/// OpFunctionParameter.
pub const FUNCTION_PARAMETER: u16 = 55;

/// OpFunctionEnd.
pub const FUNCTION_END: u16 = 56;

/// OpFunctionCall.
pub const FUNCTION_CALL: u16 = 57;

/// OpVariable.
pub const VARIABLE: u16 = 59;

/// OpImageTexelPointer.
pub const IMAGE_TEXEL_POINTER: u16 = 60;

/// OpLoad.
pub const LOAD: u16 = 61;

/// OpStore.
pub const STORE: u16 = 62;

/// OpCopyMemory.
pub const COPY_MEMORY: u16 = 63;

/// OpCopyMemorySized.
pub const COPY_MEMORY_SIZED: u16 = 64;

/// OpAccessChain.
pub const ACCESS_CHAIN: u16 = 65;

/// OpInBoundsAccessChain.
pub const IN_BOUNDS_ACCESS_CHAIN: u16 = 66;

/// OpPtrAccessChain.
pub const PTR_ACCESS_CHAIN: u16 = 67;

/// OpGenericPtrMemSemantics.
pub const GENERIC_PTR_MEM_SEMANTICS: u16 = 69;

/// OpInBoundsPtrAccessChain.
pub const IN_BOUNDS_PTR_ACCESS_CHAIN: u16 = 70;

/// OpDecorate.
pub const DECORATE: u16 = 71;

/// OpMemberDecorate.
pub const MEMBER_DECORATE: u16 = 72;

/// OpDecorationGroup.
pub const DECORATION_GROUP: u16 = 73;

/// OpGroupDecorate.
pub const GROUP_DECORATE: u16 = 74;

/// OpGroupMemberDecorate.
pub const GROUP_MEMBER_DECORATE: u16 = 75;

/// OpVectorExtractDynamic.
pub const VECTOR_EXTRACT_DYNAMIC: u16 = 77;

/// OpVectorInsertDynamic.
pub const VECTOR_INSERT_DYNAMIC: u16 = 78;

/// OpVectorShuffle.
pub const VECTOR_SHUFFLE: u16 = 79;

/// OpCompositeConstruct.
pub const COMPOSITE_CONSTRUCT: u16 = 80;

/// OpCompositeExtract.
pub const COMPOSITE_EXTRACT: u16 = 81;

/// OpCompositeInsert.
pub const COMPOSITE_INSERT: u16 = 82;

/// OpCopyObject.
pub const COPY_OBJECT: u16 = 83;

/// OpSampledImage.
pub const SAMPLED_IMAGE: u16 = 86;

/// OpImageSampleExplicitLod.
pub const IMAGE_SAMPLE_EXPLICIT_LOD: u16 = 88;

/// OpImageFetch.
pub const IMAGE_FETCH: u16 = 95;

/// OpImageRead.
pub const IMAGE_READ: u16 = 98;

/// OpImageWrite.
pub const IMAGE_WRITE: u16 = 99;

/// OpImage.
pub const IMAGE: u16 = 100;

/// OpImageQueryFormat.
pub const IMAGE_QUERY_FORMAT: u16 = 101;

/// OpImageQueryOrder.
pub const IMAGE_QUERY_ORDER: u16 = 102;

/// OpImageQuerySizeLod.
pub const IMAGE_QUERY_SIZE_LOD: u16 = 103;

/// OpImageQuerySize.
pub const IMAGE_QUERY_SIZE: u16 = 104;

/// OpImageQueryLevels.
pub const IMAGE_QUERY_LEVELS: u16 = 106;

/// OpImageQuerySamples.
pub const IMAGE_QUERY_SAMPLES: u16 = 107;

/// OpConvertFToU.
pub const CONVERT_F_TO_U: u16 = 109;

/// OpConvertFToS.
pub const CONVERT_F_TO_S: u16 = 110;

/// OpConvertSToF.
pub const CONVERT_S_TO_F: u16 = 111;

/// OpConvertUToF.
pub const CONVERT_U_TO_F: u16 = 112;

/// OpUConvert.
pub const U_CONVERT: u16 = 113;

/// OpSConvert.
pub const S_CONVERT: u16 = 114;

/// OpFConvert.
pub const F_CONVERT: u16 = 115;

/// OpQuantizeToF16.
pub const QUANTIZE_TO_F16: u16 = 116;

/// OpConvertPtrToU.
pub const CONVERT_PTR_TO_U: u16 = 117;

/// OpSatConvertSToU.
pub const SAT_CONVERT_S_TO_U: u16 = 118;

/// OpSatConvertUToS.
pub const SAT_CONVERT_U_TO_S: u16 = 119;

/// OpConvertUToPtr.
pub const CONVERT_U_TO_PTR: u16 = 120;

/// OpPtrCastToGeneric.
pub const PTR_CAST_TO_GENERIC: u16 = 121;

/// OpGenericCastToPtr.
pub const GENERIC_CAST_TO_PTR: u16 = 122;

/// OpGenericCastToPtrExplicit.
pub const GENERIC_CAST_TO_PTR_EXPLICIT: u16 = 123;

/// OpBitcast.
pub const BITCAST: u16 = 124;

/// OpSNegate.
pub const S_NEGATE: u16 = 126;

/// OpFNegate.
pub const F_NEGATE: u16 = 127;

/// OpIAdd.
pub const I_ADD: u16 = 128;

/// OpFAdd.
pub const F_ADD: u16 = 129;

/// OpISub.
pub const I_SUB: u16 = 130;

/// OpFSub.
pub const F_SUB: u16 = 131;

/// OpIMul.
pub const I_MUL: u16 = 132;

/// OpFMul.
pub const F_MUL: u16 = 133;

/// OpUDiv.
pub const U_DIV: u16 = 134;

/// OpSDiv.
pub const S_DIV: u16 = 135;

/// OpFDiv.
pub const F_DIV: u16 = 136;

/// OpUMod.
pub const U_MOD: u16 = 137;

/// OpSRem.
pub const S_REM: u16 = 138;

/// OpSMod.
pub const S_MOD: u16 = 139;

/// OpFRem.
pub const F_REM: u16 = 140;

/// OpFMod.
pub const F_MOD: u16 = 141;

/// OpVectorTimesScalar.
pub const VECTOR_TIMES_SCALAR: u16 = 142;

/// OpDot.
pub const DOT: u16 = 148;

/// OpIAddCarry.
pub const I_ADD_CARRY: u16 = 149;

/// OpISubBorrow.
pub const I_SUB_BORROW: u16 = 150;

/// OpUMulExtended.
pub const U_MUL_EXTENDED: u16 = 151;

/// OpSMulExtended.
pub const S_MUL_EXTENDED: u16 = 152;

/// OpAny.
pub const ANY: u16 = 154;

/// OpAll.
pub const ALL: u16 = 155;

/// OpIsNan.
pub const IS_NAN: u16 = 156;

/// OpIsInf.
pub const IS_INF: u16 = 157;

/// OpIsFinite.
pub const IS_FINITE: u16 = 158;

/// OpIsNormal.
pub const IS_NORMAL: u16 = 159;

/// OpSignBitSet.
pub const SIGN_BIT_SET: u16 = 160;

/// OpLessOrGreater, which versions up to 1.5 have.
pub const LESS_OR_GREATER: u16 = 161;

/// OpOrdered.
pub const ORDERED: u16 = 162;

/// OpUnordered.
pub const UNORDERED: u16 = 163;

/// OpLogicalEqual.
pub const LOGICAL_EQUAL: u16 = 164;

/// OpLogicalNotEqual.
pub const LOGICAL_NOT_EQUAL: u16 = 165;

/// OpLogicalOr.
pub const LOGICAL_OR: u16 = 166;

/// OpLogicalAnd.
pub const LOGICAL_AND: u16 = 167;

/// OpLogicalNot.
pub const LOGICAL_NOT: u16 = 168;

/// OpSelect.
pub const SELECT: u16 = 169;

/// OpIEqual.
pub const I_EQUAL: u16 = 170;

/// OpINotEqual.
pub const I_NOT_EQUAL: u16 = 171;

/// OpUGreaterThan.
pub const U_GREATER_THAN: u16 = 172;

/// OpSGreaterThan.
pub const S_GREATER_THAN: u16 = 173;

/// OpUGreaterThanEqual.
pub const U_GREATER_THAN_EQUAL: u16 = 174;

/// OpSGreaterThanEqual.
pub const S_GREATER_THAN_EQUAL: u16 = 175;

/// OpULessThan.
pub const U_LESS_THAN: u16 = 176;

/// OpSLessThan.
pub const S_LESS_THAN: u16 = 177;

/// OpULessThanEqual.
pub const U_LESS_THAN_EQUAL: u16 = 178;

/// OpSLessThanEqual.
pub const S_LESS_THAN_EQUAL: u16 = 179;

/// OpFOrdEqual.
pub const F_ORD_EQUAL: u16 = 180;

/// OpFUnordEqual.
pub const F_UNORD_EQUAL: u16 = 181;

/// OpFOrdNotEqual.
pub const F_ORD_NOT_EQUAL: u16 = 182;

/// OpFUnordNotEqual.
pub const F_UNORD_NOT_EQUAL: u16 = 183;

/// OpFOrdLessThan.
pub const F_ORD_LESS_THAN: u16 = 184;

/// OpFUnordLessThan.
pub const F_UNORD_LESS_THAN: u16 = 185;

/// OpFOrdGreaterThan.
pub const F_ORD_GREATER_THAN: u16 = 186;

/// OpFUnordGreaterThan.
pub const F_UNORD_GREATER_THAN: u16 = 187;

/// OpFOrdLessThanEqual.
pub const F_ORD_LESS_THAN_EQUAL: u16 = 188;

/// OpFUnordLessThanEqual.
pub const F_UNORD_LESS_THAN_EQUAL: u16 = 189;

/// OpFOrdGreaterThanEqual.
pub const F_ORD_GREATER_THAN_EQUAL: u16 = 190;

/// OpFUnordGreaterThanEqual.
pub const F_UNORD_GREATER_THAN_EQUAL: u16 = 191;

/// OpShiftRightLogical.
pub const SHIFT_RIGHT_LOGICAL: u16 = 194;

/// OpShiftRightArithmetic.
pub const SHIFT_RIGHT_ARITHMETIC: u16 = 195;

/// OpShiftLeftLogical.
pub const SHIFT_LEFT_LOGICAL: u16 = 196;

/// OpBitwiseOr.
pub const BITWISE_OR: u16 = 197;

/// OpBitwiseXor.
pub const BITWISE_XOR: u16 = 198;

/// OpBitwiseAnd.
pub const BITWISE_AND: u16 = 199;

/// OpNot.
pub const NOT: u16 = 200;

/// OpBitFieldInsert.
pub const BIT_FIELD_INSERT: u16 = 201;

/// OpBitFieldSExtract.
pub const BIT_FIELD_S_EXTRACT: u16 = 202;

/// OpBitFieldUExtract.
pub const BIT_FIELD_U_EXTRACT: u16 = 203;

/// OpBitReverse.
pub const BIT_REVERSE: u16 = 204;

/// OpBitCount.
pub const BIT_COUNT: u16 = 205;

/// OpControlBarrier.
pub const CONTROL_BARRIER: u16 = 224;

/// OpMemoryBarrier.
pub const MEMORY_BARRIER: u16 = 225;

/// OpAtomicLoad.
pub const ATOMIC_LOAD: u16 = 227;

/// OpAtomicStore.
pub const ATOMIC_STORE: u16 = 228;

/// OpAtomicExchange.
pub const ATOMIC_EXCHANGE: u16 = 229;

/// OpAtomicCompareExchange.
pub const ATOMIC_COMPARE_EXCHANGE: u16 = 230;

/// OpAtomicCompareExchangeWeak, which versions up to 1.3 have.
pub const ATOMIC_COMPARE_EXCHANGE_WEAK: u16 = 231;

/// OpAtomicIIncrement.
pub const ATOMIC_I_INCREMENT: u16 = 232;

/// OpAtomicIDecrement.
pub const ATOMIC_I_DECREMENT: u16 = 233;

/// OpAtomicIAdd.
pub const ATOMIC_I_ADD: u16 = 234;

/// OpAtomicISub.
pub const ATOMIC_I_SUB: u16 = 235;

/// OpAtomicSMin.
pub const ATOMIC_S_MIN: u16 = 236;

/// OpAtomicUMin.
pub const ATOMIC_U_MIN: u16 = 237;

/// OpAtomicSMax.
pub const ATOMIC_S_MAX: u16 = 238;

/// OpAtomicUMax.
pub const ATOMIC_U_MAX: u16 = 239;

/// OpAtomicAnd.
pub const ATOMIC_AND: u16 = 240;

/// OpAtomicOr.
pub const ATOMIC_OR: u16 = 241;

/// OpAtomicXor.
pub const ATOMIC_XOR: u16 = 242;

/// OpPhi.
pub const PHI: u16 = 245;

/// OpLoopMerge.
pub const LOOP_MERGE: u16 = 246;

/// OpSelectionMerge.
pub const SELECTION_MERGE: u16 = 247;

/// OpLabel.
pub const LABEL: u16 = 248;

/// OpBranch.
pub const BRANCH: u16 = 249;

/// OpBranchConditional.
pub const BRANCH_CONDITIONAL: u16 = 250;

/// OpSwitch.
pub const SWITCH: u16 = 251;

/// OpReturn.
pub const RETURN: u16 = 253;

/// OpReturnValue.
pub const RETURN_VALUE: u16 = 254;

/// OpUnreachable.
pub const UNREACHABLE: u16 = 255;

/// OpLifetimeStart.
pub const LIFETIME_START: u16 = 256;

/// OpLifetimeStop.
pub const LIFETIME_STOP: u16 = 257;

/// OpGroupAsyncCopy.
pub const GROUP_ASYNC_COPY: u16 = 259;

/// OpGroupWaitEvents.
pub const GROUP_WAIT_EVENTS: u16 = 260;

/// OpGroupAll.
pub const GROUP_ALL: u16 = 261;

/// OpGroupAny.
pub const GROUP_ANY: u16 = 262;

/// OpGroupBroadcast.
pub const GROUP_BROADCAST: u16 = 263;

/// OpGroupIAdd.
pub const GROUP_I_ADD: u16 = 264;

/// OpGroupFAdd.
pub const GROUP_F_ADD: u16 = 265;

/// OpGroupFMin.
pub const GROUP_F_MIN: u16 = 266;

/// OpGroupUMin.
pub const GROUP_U_MIN: u16 = 267;

/// OpGroupSMin.
pub const GROUP_S_MIN: u16 = 268;

/// OpGroupFMax.
pub const GROUP_F_MAX: u16 = 269;

/// OpGroupUMax.
pub const GROUP_U_MAX: u16 = 270;

/// OpGroupSMax.
pub const GROUP_S_MAX: u16 = 271;

/// OpReadPipe.
pub const READ_PIPE: u16 = 274;

/// OpWritePipe.
pub const WRITE_PIPE: u16 = 275;

/// OpReservedReadPipe.
pub const RESERVED_READ_PIPE: u16 = 276;

/// OpReservedWritePipe.
pub const RESERVED_WRITE_PIPE: u16 = 277;

/// OpReserveReadPipePackets.
pub const RESERVE_READ_PIPE_PACKETS: u16 = 278;

/// OpReserveWritePipePackets.
pub const RESERVE_WRITE_PIPE_PACKETS: u16 = 279;

/// OpCommitReadPipe.
pub const COMMIT_READ_PIPE: u16 = 280;

/// OpCommitWritePipe.
pub const COMMIT_WRITE_PIPE: u16 = 281;

/// OpIsValidReserveId.
pub const IS_VALID_RESERVE_ID: u16 = 282;

/// OpGetNumPipePackets.
pub const GET_NUM_PIPE_PACKETS: u16 = 283;

/// OpGetMaxPipePackets.
pub const GET_MAX_PIPE_PACKETS: u16 = 284;

/// OpGroupReserveReadPipePackets.
pub const GROUP_RESERVE_READ_PIPE_PACKETS: u16 = 285;

/// OpGroupReserveWritePipePackets.
pub const GROUP_RESERVE_WRITE_PIPE_PACKETS: u16 = 286;

/// OpGroupCommitReadPipe.
pub const GROUP_COMMIT_READ_PIPE: u16 = 287;

/// OpGroupCommitWritePipe.
pub const GROUP_COMMIT_WRITE_PIPE: u16 = 288;

/// OpEnqueueMarker.
pub const ENQUEUE_MARKER: u16 = 291;

/// OpEnqueueKernel.
pub const ENQUEUE_KERNEL: u16 = 292;

/// OpGetKernelNDrangeSubGroupCount.
pub const GET_KERNEL_ND_RANGE_SUB_GROUP_COUNT: u16 = 293;

/// OpGetKernelNDrangeMaxSubGroupSize.
pub const GET_KERNEL_ND_RANGE_MAX_SUB_GROUP_SIZE: u16 = 294;

/// OpGetKernelWorkGroupSize.
pub const GET_KERNEL_WORK_GROUP_SIZE: u16 = 295;

/// OpGetKernelPreferredWorkGroupSizeMultiple.
pub const GET_KERNEL_PREFERRED_WORK_GROUP_SIZE_MULTIPLE: u16 = 296;

/// OpRetainEvent.
pub const RETAIN_EVENT: u16 = 297;

/// OpReleaseEvent.
pub const RELEASE_EVENT: u16 = 298;

/// OpCreateUserEvent.
pub const CREATE_USER_EVENT: u16 = 299;

/// OpIsValidEvent.
pub const IS_VALID_EVENT: u16 = 300;

/// OpSetUserEventStatus.
pub const SET_USER_EVENT_STATUS: u16 = 301;

/// OpCaptureEventProfilingInfo.
pub const CAPTURE_EVENT_PROFILING_INFO: u16 = 302;

/// OpGetDefaultQueue.
pub const GET_DEFAULT_QUEUE: u16 = 303;

/// OpBuildNDRange.
pub const BUILD_ND_RANGE: u16 = 304;

/// OpNoLine.
pub const NO_LINE: u16 = 317;

/// OpAtomicFlagTestAndSet.
pub const ATOMIC_FLAG_TEST_AND_SET: u16 = 318;

/// OpAtomicFlagClear.
pub const ATOMIC_FLAG_CLEAR: u16 = 319;

/// OpSizeOf.
pub const SIZE_OF: u16 = 321;

/// OpTypePipeStorage.
pub const TYPE_PIPE_STORAGE: u16 = 322;

/// OpConstantPipeStorage.
pub const CONSTANT_PIPE_STORAGE: u16 = 323;

/// OpCreatePipeFromPipeStorage.
pub const CREATE_PIPE_FROM_PIPE_STORAGE: u16 = 324;

/// OpGetKernelLocalSizeForSubgroupCount.
pub const GET_KERNEL_LOCAL_SIZE_FOR_SUBGROUP_COUNT: u16 = 325;

/// OpGetKernelMaxNumSubgroups.
pub const GET_KERNEL_MAX_NUM_SUBGROUPS: u16 = 326;

/// OpTypeNamedBarrier.
pub const TYPE_NAMED_BARRIER: u16 = 327;

/// OpNamedBarrierInitialize.
pub const NAMED_BARRIER_INITIALIZE: u16 = 328;

/// OpMemoryNamedBarrier.
pub const MEMORY_NAMED_BARRIER: u16 = 329;

/// OpModuleProcessed.
pub const MODULE_PROCESSED: u16 = 330;

/// OpExecutionModeId.
pub const EXECUTION_MODE_ID: u16 = 331;

/// OpDecorateId.
pub const DECORATE_ID: u16 = 332;

/// OpGroupNonUniformElect.
pub const GROUP_NON_UNIFORM_ELECT: u16 = 333;

/// OpGroupNonUniformAll.
pub const GROUP_NON_UNIFORM_ALL: u16 = 334;

/// OpGroupNonUniformAny.
pub const GROUP_NON_UNIFORM_ANY: u16 = 335;

/// OpGroupNonUniformAllEqual.
pub const GROUP_NON_UNIFORM_ALL_EQUAL: u16 = 336;

/// OpGroupNonUniformBroadcast.
pub const GROUP_NON_UNIFORM_BROADCAST: u16 = 337;

/// OpGroupNonUniformBroadcastFirst.
pub const GROUP_NON_UNIFORM_BROADCAST_FIRST: u16 = 338;

/// OpGroupNonUniformBallot.
pub const GROUP_NON_UNIFORM_BALLOT: u16 = 339;

/// OpGroupNonUniformInverseBallot.
pub const GROUP_NON_UNIFORM_INVERSE_BALLOT: u16 = 340;

/// OpGroupNonUniformBallotBitExtract.
pub const GROUP_NON_UNIFORM_BALLOT_BIT_EXTRACT: u16 = 341;

/// OpGroupNonUniformBallotBitCount.
pub const GROUP_NON_UNIFORM_BALLOT_BIT_COUNT: u16 = 342;

/// OpGroupNonUniformBallotFindLSB.
pub const GROUP_NON_UNIFORM_BALLOT_FIND_LSB: u16 = 343;

/// OpGroupNonUniformBallotFindMSB.
pub const GROUP_NON_UNIFORM_BALLOT_FIND_MSB: u16 = 344;

/// OpGroupNonUniformShuffle.
pub const GROUP_NON_UNIFORM_SHUFFLE: u16 = 345;

/// OpGroupNonUniformShuffleXor.
pub const GROUP_NON_UNIFORM_SHUFFLE_XOR: u16 = 346;

/// OpGroupNonUniformShuffleUp.
pub const GROUP_NON_UNIFORM_SHUFFLE_UP: u16 = 347;

/// OpGroupNonUniformShuffleDown.
pub const GROUP_NON_UNIFORM_SHUFFLE_DOWN: u16 = 348;

/// OpGroupNonUniformIAdd.
pub const GROUP_NON_UNIFORM_I_ADD: u16 = 349;

/// OpGroupNonUniformFAdd.
pub const GROUP_NON_UNIFORM_F_ADD: u16 = 350;

/// OpGroupNonUniformIMul.
pub const GROUP_NON_UNIFORM_I_MUL: u16 = 351;

/// OpGroupNonUniformFMul.
pub const GROUP_NON_UNIFORM_F_MUL: u16 = 352;

/// OpGroupNonUniformSMin.
pub const GROUP_NON_UNIFORM_S_MIN: u16 = 353;

/// OpGroupNonUniformUMin.
pub const GROUP_NON_UNIFORM_U_MIN: u16 = 354;

/// OpGroupNonUniformFMin.
pub const GROUP_NON_UNIFORM_F_MIN: u16 = 355;

/// OpGroupNonUniformSMax.
pub const GROUP_NON_UNIFORM_S_MAX: u16 = 356;

/// OpGroupNonUniformUMax.
pub const GROUP_NON_UNIFORM_U_MAX: u16 = 357;

/// OpGroupNonUniformFMax.
pub const GROUP_NON_UNIFORM_F_MAX: u16 = 358;

/// OpGroupNonUniformBitwiseAnd.
pub const GROUP_NON_UNIFORM_BITWISE_AND: u16 = 359;

/// OpGroupNonUniformBitwiseOr.
pub const GROUP_NON_UNIFORM_BITWISE_OR: u16 = 360;

/// OpGroupNonUniformBitwiseXor.
pub const GROUP_NON_UNIFORM_BITWISE_XOR: u16 = 361;

/// OpGroupNonUniformLogicalAnd.
pub const GROUP_NON_UNIFORM_LOGICAL_AND: u16 = 362;

/// OpGroupNonUniformLogicalOr.
pub const GROUP_NON_UNIFORM_LOGICAL_OR: u16 = 363;

/// OpGroupNonUniformLogicalXor.
pub const GROUP_NON_UNIFORM_LOGICAL_XOR: u16 = 364;

/// OpGroupNonUniformQuadBroadcast.
pub const GROUP_NON_UNIFORM_QUAD_BROADCAST: u16 = 365;

/// OpGroupNonUniformQuadSwap.
pub const GROUP_NON_UNIFORM_QUAD_SWAP: u16 = 366;

/// OpCopyLogical.
pub const COPY_LOGICAL: u16 = 400;

/// OpPtrEqual.
pub const PTR_EQUAL: u16 = 401;

/// OpPtrNotEqual.
pub const PTR_NOT_EQUAL: u16 = 402;

/// OpPtrDiff.
pub const PTR_DIFF: u16 = 403;

/// OpSDot.
pub const S_DOT: u16 = 4450;

/// OpUDot.
pub const U_DOT: u16 = 4451;

/// OpSUDot.
pub const SU_DOT: u16 = 4452;

/// OpSDotAccSat.
pub const S_DOT_ACC_SAT: u16 = 4453;

/// OpUDotAccSat.
pub const U_DOT_ACC_SAT: u16 = 4454;

/// OpSUDotAccSat.
pub const SU_DOT_ACC_SAT: u16 = 4455;

/// OpDecorateString.
pub const DECORATE_STRING: u16 = 5632;

/// OpMemberDecorateString.
pub const MEMBER_DECORATE_STRING: u16 = 5633;
